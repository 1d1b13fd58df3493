// The search for the lowest rate.
ghost use Rattle.std.specs.Prelude.{◌≡◌, ◌≤◌, suc};
ghost use Rattle.coefficients.specs.Sets.{coefficient_in_use};
ghost use Rattle.book.specs.Rates.{max_rate};
ghost use Rattle.numbers.specs.Bisection.{Between};
ghost use Rattle.screening.specs.Screenable.{Judgeable, Screenable};
ghost use Rattle.verdict.specs.HeldNumbers.{number_in};
ghost use Rattle.ventilation.specs.Lowest.{first_rate};
ghost use Rattle.ventilation.specs.Private.BelowAt.{below_at};

use book::{AcceptedChain, Coefficients, MAX_MEMBERS, MAX_RATE, Rate, read_chain};
use coefficients::numbers_in_use;
use numbers::first_where;
use screening::{Criterion, ScreeningInput, Verdict, verdict_at};

// At how many rates the verdict is not 'below'. They come before those at which it is, since at a higher rate no
// verdict is worse, and so a search by halves finds the first of these.
fn failing_rates(
    by: Criterion,
    concentration: u64,
    chain: AcceptedChain<'_>,
    coefficients: &[Coefficients; MAX_MEMBERS],
) -> u32
    requires { Judgeable by concentration }
    ensures { let book = chain.entry.chain.now.bytes.now in
        Between (below_at by book (number_in coefficients.now) concentration) (suc max_rate) result result }
{
    let is_enough = |rate|
        requires within { rate ≤ max_rate }
        requires judgeable { Judgeable by concentration }
    {
        let rate = Rate { hundredths: rate };
        verdict_at(by, rate, concentration, chain, coefficients) == Verdict::Below
    };
    first_where(MAX_RATE + 1, is_enough)
}

// The lowest rate for a room whose book and second set are checked. Both are read once, and their arrays are lent.
pub(crate) fn lowest_for(input: ScreeningInput, book: &[u8], second: &[u8]) -> Option<u32>
    requires { Screenable input.by input.rate input.concentration book.now }
    ensures { result ≡ first_rate (below_at input.by book.now (coefficient_in_use book.now second.now)
        input.concentration) 0 (suc max_rate) }
{
    let held = read_chain(book);
    let chain = AcceptedChain { chain: &held };
    let numbers = numbers_in_use(chain, second);
    let failing = failing_rates(input.by, input.concentration, chain, &numbers.rows);
    if failing <= MAX_RATE {
        Some(failing)
    } else {
        None
    }
}
