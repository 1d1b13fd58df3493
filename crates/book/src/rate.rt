// A rate of ventilation that is within its limit.
ghost use Rattle.std.specs.Prelude.{◌≡◌, ◌≤◌, MatchResult, Ok, Err};
ghost use Rattle.book.specs.Rates.{max_rate, rate_checked};

use crate::limits::MAX_RATE;
use refusals::{Refusal, refuse_if};

// In hundredths of an air change per hour.
#[derive(Clone, Copy)]
pub struct Rate {
    pub hundredths: u32,
    pub ghost within: { hundredths ≤ max_rate },
}

// Ground 3 refuses any other.
impl TryFrom<u32> for Rate {
    type Error = Refusal;

    ghost try_from_gives = { λ v answer.
        MatchResult answer
        (λ rate. (rate_checked v ≡ Ok tt) × (rate.hundredths ≡ v))
        (λ refusal. rate_checked v ≡ Err refusal) };

    fn try_from(v: u32) -> Result<Rate, Refusal> {
        refuse_if(MAX_RATE < v, Refusal::RateTooHigh)?;
        Ok(Rate { hundredths: v })
    }
}
