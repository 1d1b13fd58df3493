// The checks of the table call: 3 for every rate, the book's, 20. Ground 21 needs the text's length, and comes after
// them.
ghost use Rattle.std.specs.Prelude.{◌≡◌};
ghost use Rattle.refusals.specs.Grounds.{first_met};
ghost use Rattle.tables.specs.Answers.{some_rate_too_high, earlier_grounds};

use crate::limits::MAX_RATES;
use book::{MAX_RATE, check_book};
use refusals::{Refusal, refuse_if};

// The first ground for refusing the call, but for the last.
pub(crate) fn check_table(rates: &[u32], book: &[u8]) -> Result<(), Refusal>
    ensures { result ≡ first_met (earlier_grounds rates.now book.now) }
{
    let count = rates.len();
    refuse_if(some_rate_too_high(rates), Refusal::RateTooHigh)?;
    check_book(book)?;
    refuse_if(
        !(1..=MAX_RATES).contains(&count),
        Refusal::RateCountOutOfRange,
    )
}

// One of them exceeds the highest. Each is looked at, as many as there are, so that the compiler can take several at a
// time: a list that is too long is read to its end too.
#[tactic(auto, unfolding(crate::specs::Answers::some_rate_too_high))]
fn some_rate_too_high(rates: &[u32]) -> bool
    ensures { result ≡ some_rate_too_high rates.now }
{
    rates
        .iter()
        .fold(false, |found, rate| found | (MAX_RATE < *rate))
}
