// The checks of the call: 3 for every rate, 22 for the periods, the book's, 19.
ghost use Rattle.std.specs.Prelude.{◌≡◌};
ghost use Rattle.refusals.specs.Grounds.{first_met};
ghost use Rattle.numbers.specs.Tests.{outside, some_below};
ghost use Rattle.minutes.specs.Minutes.{minutes_of};
ghost use Rattle.minutes.specs.Periods.{max_minutes, period_count, period_rate_too_high};
ghost use Rattle.minutes.specs.Periods.{periods_out_of_range, periods_grounds};

use super::limits::{MAX_MINUTES, MAX_PERIODS};
use book::{MAX_RATE, check_book, member_count};
use refusals::{Refusal, refuse_if};

// The first ground for refusing the call, if there is one.
#[tactic(auto, using(refusals::proofs::FirstMet::in_turn))]
pub(crate) fn check_periods(periods: &[u32], book: &[u8], capacity: usize) -> Result<(), Refusal>
    ensures { result ≡ first_met (periods_grounds periods.now book.now capacity) }
{
    refuse_if(some_rate_too_high(periods), Refusal::RateTooHigh)?;
    refuse_if(periods_out_of_range(periods), Refusal::PeriodsOutOfRange)?;
    check_book(book)?;
    refuse_if(
        capacity < usize::from(member_count(book)),
        Refusal::ListTooShort,
    )
}

// Every second number is a rate, an unpaired last one included: rates and minutes come from C in one list.
fn some_rate_too_high(periods: &[u32]) -> bool
    ensures { result ≡ period_rate_too_high periods.now }
{
    periods.chunks(2).any(|period| MAX_RATE < period[0])
}

// The list's length, how many periods there are, and how long each is.
#[tactic(auto, unfolding(crate::specs::Periods::periods_out_of_range))]
fn periods_out_of_range(periods: &[u32]) -> bool
    ensures { result ≡ periods_out_of_range periods.now }
{
    let numbers = periods.len();
    let count = numbers / 2;
    let unpaired = numbers % 2 == 1;
    let miscounted = !(1..=MAX_PERIODS).contains(&count);
    unpaired || miscounted || some_length_out_of_range(periods)
}

fn some_length_out_of_range(periods: &[u32]) -> bool
    ensures { result ≡ some_below (period_count periods.now) (λ p. outside 1 max_minutes (minutes_of periods.now p)) }
{
    periods
        .chunks_exact(2)
        .any(|period| length_out_of_range(period[1]))
}

fn length_out_of_range(minutes: u32) -> bool
    ensures { result ≡ outside 1 max_minutes minutes }
{
    !(1..=MAX_MINUTES).contains(&minutes)
}
