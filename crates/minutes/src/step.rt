// One member's step through a minute.
ghost use Rattle.std.specs.Prelude.{◌≡◌, ◌+◌, ◌*◌, ◌/◌, ◌≤◌, ◌<◌};
ghost use Rattle.book.specs.Limits.{max_half_life};
ghost use Rattle.balance.specs.Balance.{K};
ghost use Rattle.minutes.specs.Minutes.{once_a_minute};

use super::limits::ONCE_A_MINUTE;
use balance::DECAY;
use book::Rate;
use wide::products_quotient;

// A later member's new factor: what is left of the old one and what came in, less what was blown out.
// It is a mean of two words, or less, so it fits one.
pub(crate) fn new_factor(inflow: u64, scale: u64, half_life: u64, v: Rate, old: u64) -> u64
    requires scale_positive { 0 < scale }
    requires half_life_le_max_half_life { half_life ≤ max_half_life }
    ensures { result
        ≡ (once_a_minute * half_life * old + K * (inflow / scale)) / (K + (once_a_minute + v.hundredths) * half_life) }
{
    let held = ONCE_A_MINUTE * half_life;
    let whole = inflow / scale;
    let divisor = DECAY + (ONCE_A_MINUTE + u64::from(v.hundredths)) * half_life;
    products_quotient(held, old, DECAY, whole, divisor)
}
