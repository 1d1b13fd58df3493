// The texts of a job: its report, which `screen` writes, the line of its lowest rate, which `fan` writes, and both by a
// second set of coefficients, which `partner` writes.
#![tactic(auto)]

mod answer;
mod by_set;
mod lengths;
mod lines;
mod rate_lines;

ghost use Rattle.std.specs.Prelude.{◌≡◌, length, take};
ghost use Rattle.io.specs.Counts.{IsPrefixLen};
ghost use Rattle.text.specs.Answered.{length_written, bytes_written};
ghost use Rattle.report.specs.Report.{report_of};
ghost use Rattle.report.specs.RateLine.{rate_line};

pub use answer::write_answer;
pub use by_set::{PARTNER_ROOM, partner_text};
pub use lengths::REPORT_ROOM;
pub use rate_lines::RATE_LINE_ROOM;
use rate_lines::put_rate;
use screening::screen_job;
use text::Writer;
use ventilation::lowest_rate;

// The report of a job, to the start of `out`, and its length; where there is no room for all of it none, with `out` as
// it was.
pub fn report_job(job: &[u8], out: &mut [u8]) -> Option<usize>
    ensures answered { result ≡ length_written (report_of job.now) (length out.old) }
    ensures written { out.new ≡ bytes_written (report_of job.now) out.old }
{
    write_answer(screen_job(job), out)
}

// The report of a job where there is room for any: how many of the first bytes of `out` it is. What stands behind it
// stays as it was.
pub fn whole_report(job: &[u8], out: &mut [u8; REPORT_ROOM]) -> usize
    ensures within { IsPrefixLen result out.new }
    ensures written { take result out.new ≡ report_of job.now }
    ensures whole { out.new ≡ bytes_written (report_of job.now) out.old }
{
    report_job(job, out).unwrap()
}

// The line that `fan` writes for a job, in so many of the first bytes of `out`. What stands behind it stays as it was.
pub fn rate_line(job: &[u8], out: &mut [u8; RATE_LINE_ROOM]) -> usize
    ensures within { IsPrefixLen result out.new }
    ensures written { take result out.new ≡ rate_line job.now }
    ensures whole { out.new ≡ bytes_written (rate_line job.now) out.old }
{
    let mut writer = Writer::new(out);
    put_rate(&mut writer, lowest_rate(job));
    writer.length()
}
