// The text of a job by a second set of coefficients, which `partner` writes.
ghost use Rattle.std.specs.Prelude.{◌≡◌, ◌≤◌, length, take};
ghost use Rattle.io.specs.Counts.{IsPrefixLen};
ghost use Rattle.text.specs.Answered.{bytes_written};
ghost use Rattle.report.specs.Report.{answer_lines};
ghost use Rattle.report.specs.BySet.{named_text, partner_text, partner_room};

use crate::lengths::{REPORT_ROOM, SET_WORDS};
use crate::lines::{put_factor_lines, put_figures, put_refusal};
use crate::rate_lines::{RATE_LINE_ROOM, put_rate};
use book::MAX_MEMBERS;
use refusals::Refusal;
use screening::{Answer, screen_job_with};
use text::{MOST_DIGITS, Sink, Writer, put_line};
use ventilation::{LowestRate, lowest_rate_with};

// No text is longer: the line of the set, a report, and the line of a rate.
pub const PARTNER_ROOM: usize = SET_WORDS + MOST_DIGITS + REPORT_ROOM + RATE_LINE_ROOM;

// The constant is the definition's.
fn partner_room() -> usize
    ensures { result ≡ partner_room }
{
    PARTNER_ROOM
}

// The set in use, the report and the lowest rate by it, in so many of the first bytes of `out`. What stands behind it
// stays as it was.
pub fn partner_text(job: &[u8], second: &[u8], out: &mut [u8; PARTNER_ROOM]) -> usize
    ensures within { IsPrefixLen result out.new }
    ensures written { take result out.new ≡ partner_text job.now second.now }
    ensures whole { out.new ≡ bytes_written (partner_text job.now second.now) out.old }
{
    let mut writer = Writer::new(out);
    put_named(
        &mut writer,
        screen_job_with(job, second),
        lowest_rate_with(job, second),
    );
    writer.length()
}

#[tactic(auto, unfolding(crate::specs::BySet::named_text))]
fn put_named<S: Sink>(
    sink: &mut S,
    answered: Result<Answer, Refusal>,
    lowest: Result<LowestRate, Refusal>,
)
    requires { length (named_text answered lowest) ≤ S.room sink.old }
    ensures { S.Took sink.old (named_text answered lowest) sink.new }
{
    match answered {
        Ok(answer) => {
            put_line(sink, b"set ", u64::from(u32::from(answer.figures.set)));
            put_answer(sink, &answer);
            put_rate(sink, lowest);
        }
        Err(refusal) => put_refusal(sink, refusal),
    }
}

fn put_answer<S: Sink>(sink: &mut S, answer: &Answer)
    requires { length (answer_lines answer.now) ≤ S.room sink.old }
    ensures { S.Took sink.old (answer_lines answer.now) sink.new }
{
    // An answer made by hand can count more members than it has places for.
    let count = answer.count.min(MAX_MEMBERS);
    put_factor_lines(sink, &answer.factors[..count]);
    put_figures(sink, answer.figures);
}
