// The four digits of a factor's share of the whole, and its exponent.
ghost use Rattle.std.specs.Prelude.{◌≤◌, ◌<◌, ◌≡◌};
ghost use Rattle.balance.specs.Balance.{G};
ghost use Rattle.entry.specs.Entry.{exponent, thousandths};

use balance::GRAINS;
use rounding::nearest;

// The least number of five digits.
const FIVE_DIGITS: u64 = 10_000;

// A share as a table prints it: so many thousandths of 10^-exponent.
#[derive(Clone, Copy)]
pub struct Share {
    pub thousandths: u64,
    pub exponent: u64,
}

// Ten times as fine as long as there are no more than four digits. What is scaled stays below 10,000 G, so one word
// holds it.
#[tactic(auto, using(crate::proofs::Places::places))]
pub(crate) fn share_of(factor: u64) -> Share
    requires { (0 < factor) × (factor ≤ G) }
    ensures exponent { result.exponent ≡ exponent factor }
    ensures digits { result.thousandths ≡ thousandths factor (exponent factor) }
{
    let mut scaled = factor * 1000;
    let mut exponent: u64 = 0;
    // It ends at a size and not at a count: no iterator serves.
    while nearest(scaled * 10, GRAINS) < FIVE_DIGITS {
        scaled *= 10;
        exponent += 1;
    }
    let thousandths = nearest(scaled, GRAINS);
    Share {
        thousandths,
        exponent,
    }
}
