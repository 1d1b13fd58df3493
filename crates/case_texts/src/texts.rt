// What the programs write of a job, and of a table, as the case of each kind that is one of theirs.
ghost use Rattle.std.specs.Prelude.{◌≡◌, IfOk};
ghost use Rattle.report.specs.Report.{report_of};
ghost use Rattle.report.specs.RateLine.{rate_line};
ghost use Rattle.case_texts.specs.Texts.{partner_case, marks_case};

use super::parts::{first_part, second_part};
use marking::{MARKS_ROOM, marks_text};
use report::{PARTNER_ROOM, RATE_LINE_ROOM, REPORT_ROOM, partner_text, rate_line, whole_report};
use std::alloc::{AllocError, Global};

// A whole job, as `screen` writes it.
pub fn report_case(alloc: Global, job: &[u8]) -> Result<Vec<u8>, AllocError>
    ensures { IfOk result (λ text. text.items ≡ report_of job.now) }
{
    let mut buffer = [0u8; REPORT_ROOM];
    let n = whole_report(job, &mut buffer);
    Vec::from_slice(alloc, &buffer[..n])
}

// A job, as `fan` writes it. Two functions, as `screen` and `fan` are two programs, and for the same reason.
pub fn lowest_case(alloc: Global, job: &[u8]) -> Result<Vec<u8>, AllocError>
    ensures { IfOk result (λ text. text.items ≡ rate_line job.now) }
{
    let mut buffer = [0u8; RATE_LINE_ROOM];
    let n = rate_line(job, &mut buffer);
    Vec::from_slice(alloc, &buffer[..n])
}

// A job by a second set, as `partner` writes it.
pub fn partner_case(alloc: Global, body: &[u8]) -> Result<Vec<u8>, AllocError>
    ensures { IfOk result (λ text. text.items ≡ partner_case body.now) }
{
    let mut buffer = [0u8; PARTNER_ROOM];
    let n = partner_text(second_part(body), first_part(body), &mut buffer);
    Vec::from_slice(alloc, &buffer[..n])
}

// A table and a book, as `marks` writes it.
pub fn marks_case(alloc: Global, body: &[u8]) -> Result<Vec<u8>, AllocError>
    ensures { IfOk result (λ text. text.items ≡ marks_case body.now) }
{
    let mut buffer = [0u8; MARKS_ROOM];
    let n = marks_text(first_part(body), second_part(body), &mut buffer);
    Vec::from_slice(alloc, &buffer[..n])
}
