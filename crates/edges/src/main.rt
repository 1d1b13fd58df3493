// Runs the factor call on each recorded case of standard input, and writes its answer and what the lent list then
// holds. The head of a case is the rate (u32), how many places the lent list has (u16) and how many bytes the book has
// (u16), little-endian. The book follows.
#![tactic(auto)]

use arguments::ended;
use case_texts::factors_case;
use numbers::u16_at;
use records::{Shape, answer_cases};
use std::io::Read;
use std::process::ExitCode;

// No recorded case has a longer list, and no recording more bytes.
const MOST_PLACES: u16 = 20;

const MOST_BYTES: u64 = 65_536;

fn main(rt: HostRuntime) -> ExitCode {
    let alloc = rt.alloc();
    let mut input = rt.stdin().take(MOST_BYTES);
    let answered = answer_cases(alloc, &mut input, &mut rt.stdout(), shape, |body| {
        factors_case(alloc, body)
    });
    ended(&rt, answered)
}

// None beyond the limits. The whole book has to be there.
fn shape(head: &[u8]) -> Option<Shape> {
    if MOST_PLACES < u16_at(head, 4) {
        return None;
    }
    let book = usize::from(u16_at(head, 6));
    Some(Shape {
        begin: 6,
        rest: book,
        least: book,
    })
}
