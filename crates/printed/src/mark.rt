// The mark of a printed number.
ghost use Rattle.std.specs.Prelude.{◌≡◌, ◌≤◌};
ghost use Rattle.printed.specs.Mark.{not_below, not_above, within, mark_of};
ghost use Rattle.printed.specs.Promises.{MarkPromise};

use crate::scaling::scaled;
use balance::GRAINS;
use entry::Share;

// From best to worst.
#[derive(Clone, Copy, PartialEq, Eq)]
pub enum Mark {
    Right,
    Close,
    Wrong,
}

// So many grains are not more than half a unit below the printed number.
#[tactic(auto, using(crate::proofs::Capped::from_below))]
fn not_below(share: Share, x: u64) -> bool
    requires { share.thousandths ≤ 9999 }
    ensures { result ≡ not_below share x 1 }
{
    2 * (share.thousandths * GRAINS) <= 2 * scaled(x, share.exponent) + GRAINS
}

// Nor more than half a unit above it.
#[tactic(auto, using(crate::proofs::Capped::from_above))]
fn not_above(share: Share, x: u64) -> bool
    requires { share.thousandths ≤ 9999 }
    ensures { result ≡ not_above share x 1 }
{
    2 * scaled(x, share.exponent) <= 2 * (share.thousandths * GRAINS) + GRAINS
}

// So many grains are within half a unit of it.
fn within(share: Share, x: u64) -> bool
    requires { share.thousandths ≤ 9999 }
    ensures { result ≡ within share x 1 }
{
    not_below(share, x) & not_above(share, x)
}

// How a printed number of four digits stands to the interval from `low` to `high` grains.
#[tactic(auto, unfolding(crate::specs::Mark::mark_of), using(crate::proofs::Promised::kept))]
pub fn mark_of(share: Share, low: u64, high: u64) -> Mark
    requires { share.thousandths ≤ 9999 }
    ensures answered { result ≡ mark_of share low high }
    ensures sound { low ≤ high → MarkPromise share low high result }
{
    if within(share, low) & within(share, high) {
        return Mark::Right;
    }
    if !not_below(share, high) | !not_above(share, low) {
        return Mark::Wrong;
    }
    Mark::Close
}
