// Runs the table call on each recorded case of standard input, and writes its answer and then all of the lent buffer.
// The head of a case is how many bytes the lent buffer has (u32), how many rates there are (u16) and how many bytes the
// book has (u16), little-endian. The rates (u32 each) and the book follow.
#![tactic(auto)]

use arguments::ended;
use case_texts::table_case;
use numbers::{u16_at, u32_at};
use records::{Shape, answer_cases};
use std::process::ExitCode;

// No recorded case has a longer buffer, more rates or a longer book.
const MOST_ROOM: u32 = 65_536;

const MOST_RATES: u16 = 300;

const MOST_BOOK: u16 = 2_000;

fn main(rt: HostRuntime) -> ExitCode {
    let alloc = rt.alloc();
    let answered = answer_cases(alloc, &mut rt.stdin(), &mut rt.stdout(), shape, |body| {
        table_case(alloc, body)
    });
    ended(&rt, answered)
}

// None beyond the limits. A body that is cut off goes as far as it does.
fn shape(head: &[u8]) -> Option<Shape> {
    let rates = u16_at(head, 4);
    let book = u16_at(head, 6);
    if MOST_ROOM < u32_at(head, 0) || MOST_RATES < rates || MOST_BOOK < book {
        return None;
    }
    Some(Shape {
        begin: 6,
        rest: 4 * usize::from(rates) + usize::from(book),
        least: 0,
    })
}
