// Runs the call for periods of airing on each recorded case of standard input, and writes its answer and what the lent
// list then holds. The head of a case is how many places the lent list has, how many numbers there are and how many
// bytes the book has (u16 each), and two bytes that are zero, little-endian. The numbers (u32 each) and the book
// follow.
#![tactic(auto)]

use arguments::ended;
use case_texts::opening_case;
use numbers::u16_at;
use records::{Shape, answer_cases};
use std::process::ExitCode;

// No recorded case has a longer list, more numbers or a longer book.
const MOST_PLACES: u16 = 20;

const MOST_NUMBERS: u16 = 100;

const MOST_BOOK: u16 = 2_000;

fn main(rt: HostRuntime) -> ExitCode {
    let alloc = rt.alloc();
    let answered = answer_cases(alloc, &mut rt.stdin(), &mut rt.stdout(), shape, |body| {
        opening_case(alloc, body)
    });
    ended(&rt, answered)
}

// None beyond the limits. All of the numbers and the book have to be there.
fn shape(head: &[u8]) -> Option<Shape> {
    let numbers = u16_at(head, 2);
    let book = u16_at(head, 4);
    if MOST_PLACES < u16_at(head, 0) || MOST_NUMBERS < numbers || MOST_BOOK < book {
        return None;
    }
    let rest = 4 * usize::from(numbers) + usize::from(book);
    Some(Shape {
        begin: 4,
        rest,
        least: rest,
    })
}
