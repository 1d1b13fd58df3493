// A table's entry: a factor as its share of the parent's, in nine characters, d.dddE-dd.
#![tactic(auto)]

mod digits;
mod scaling;

ghost use Rattle.std.specs.Prelude.{min, ◌≡◌};
ghost use Rattle.balance.specs.Balance.{G};
ghost use Rattle.entry.specs.Entry.{entry_of};
ghost use Rattle.entry.specs.Promises.{EntryPromise};

use balance::GRAINS;
pub use scaling::Share;
use scaling::share_of;

// Every entry has nine characters.
pub const ENTRY_LENGTH: usize = 9;

// The entry of a factor in grains. No call reports a factor above the parent's; one that is made by hand has the
// parent's entry.
#[tactic(auto, using(crate::proofs::Cases::of_zero))]
pub fn entry_of(factor: u64) -> [u8; ENTRY_LENGTH]
    ensures answered { result ≡ entry_of (min factor G) }
    ensures sound { EntryPromise (min factor G) result }
{
    if factor == 0 {
        return *b"0.000E+00";
    }
    share_of(factor.min(GRAINS)).printed()
}
