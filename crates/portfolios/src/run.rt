// A run over many rates of a book that is checked and read.
ghost use Rattle.std.specs.Prelude.{◌≡◌, ◌+◌, ◌*◌, ◌≤◌, length, min};
ghost use Rattle.refusals.specs.Grounds.{first_met};
ghost use Rattle.book.specs.BookGrounds.{book_grounds};
ghost use Rattle.portfolios.specs.Rows.{rows_at, answers_at};

use crate::next::run_next;
use book::HeldChain;
use refusals::Refusal;

// The place after so many rows from `at` on, where the list does not end before.
fn rows_end(at: usize, count: usize, width: usize, room: usize) -> usize
    requires { at ≤ room }
    ensures { result ≡ min (at + count * width) room }
{
    at + count.saturating_mul(width).min(room - at)
}

// An answer for each rate, and a row. Within its caller it would have the chain copied once more onto the stack.
#[inline(never)]
pub(crate) fn run_rates(
    found: Result<(), Refusal>,
    chain: &HeldChain<'_>,
    rates: &[u32],
    width: usize,
    answers: &mut [i64],
    rows: &mut [u64],
)
    requires checked { found ≡ first_met (book_grounds chain.now.bytes.now) }
    requires lent { length answers.old ≡ length rates.now }
    ensures answers { answers.new ≡ answers_at width chain.now.bytes.now rates.now rows.old }
    ensures rows { rows.new ≡ rows_at width chain.now.bytes.now rates.now rows.old }
{
    let mut i = 0;
    let mut at = 0;
    while i < rates.len() {
        let count = run_next(
            found,
            chain,
            &rates[i..],
            width,
            &mut answers[i..],
            &mut rows[at..],
        );
        at = rows_end(at, count, width, rows.len());
        i += count;
    }
}
