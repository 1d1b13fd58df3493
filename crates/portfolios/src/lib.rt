// One book at many rates, each checked and answered as by the factor call.
#![tactic(auto)]

mod four;
mod next;
mod rows;
mod run;

ghost use Rattle.std.specs.Prelude.{◌≡◌, length};
ghost use Rattle.portfolios.specs.Run.{rates_run, answers_left, rows_left};
ghost use Rattle.portfolios.specs.Promises.{RowsPromise};

use book::{check_book, read_chain};
use run::run_rates;

// The factors at every rate, each into a row of so many places of `rows`, and what the factor call answers to it, as
// one number: how many rates were run, which are those whose answers have a place. A rate that is refused leaves its
// row as it was.
pub fn factors_at_rates(
    rates: &[u32],
    book: &[u8],
    width: usize,
    answers: &mut [i64],
    rows: &mut [u64],
) -> usize
    ensures answered { result ≡ length (rates_run rates.now answers.old) }
    ensures answers { answers.new ≡ answers_left rates.now book.now width answers.old rows.old }
    ensures rows { rows.new ≡ rows_left rates.now book.now width answers.old rows.old }
    ensures sound { RowsPromise (rates_run rates.now answers.old) book.now width answers.new rows.new }
{
    let chain = read_chain(book);
    let count = rates.len().min(answers.len());
    run_rates(
        check_book(book),
        &chain,
        &rates[..count],
        width,
        &mut answers[..count],
        rows,
    );
    count
}
