// The line that `fan` writes.
ghost use Rattle.std.specs.Prelude.{◌≤◌, ◌≡◌, length};
ghost use Rattle.report.specs.RateLine.{found_line, line_of, rate_line_room};

use crate::lengths::REFUSED_WORDS;
use crate::lines::put_refusal;
use refusals::Refusal;
use text::{MOST_DIGITS, Sink, put_line};
use ventilation::LowestRate;

// No line is longer: "refused ", a number and a line feed.
pub const RATE_LINE_ROOM: usize = REFUSED_WORDS + MOST_DIGITS;

// The constant is the definition's.
fn rate_line_room() -> usize
    ensures { result ≡ rate_line_room }
{
    RATE_LINE_ROOM
}

// The line of an answer.
#[tactic(auto, unfolding(crate::specs::RateLine::line_of))]
pub(crate) fn put_rate<S: Sink>(sink: &mut S, answered: Result<LowestRate, Refusal>)
    requires { length (line_of answered) ≤ S.room sink.old }
    ensures { S.Took sink.old (line_of answered) sink.new }
{
    match answered {
        Ok(lowest) => put_found(sink, lowest.rate),
        Err(refusal) => put_refusal(sink, refusal),
    }
}

fn put_found<S: Sink>(sink: &mut S, rate: Option<u32>)
    requires { length (found_line rate) ≤ S.room sink.old }
    ensures { S.Took sink.old (found_line rate) sink.new }
{
    match rate {
        Some(rate) => put_line(sink, b"rate ", u64::from(rate)),
        None => sink.word(b"rate none\n"),
    }
}
