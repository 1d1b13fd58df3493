// Which set is in use, and where a second set's numbers stand.
ghost use Rattle.std.specs.Prelude.{◌≡◌, ◌<◌, ◌^◌};
ghost use Rattle.coefficients.specs.Sets.{group_at, longest_set, set_in_use, set_number};

use book::MAX_MEMBERS;

#[derive(Clone, Copy, Debug, PartialEq, Eq)]
pub enum CoefficientSet {
    Book,
    Second,
}

impl From<CoefficientSet> for u32 {
    ghost from_gives = { λ set number. number ≡ set_number set };

    fn from(set: CoefficientSet) -> u32 {
        match set {
            CoefficientSet::Book => 1,
            CoefficientSet::Second => 2,
        }
    }
}

// The bytes of a member's group in a second set: five numbers of four bytes.
pub const GROUP_LENGTH: u32 = 20;

// The most bytes that an accepted set has. A usize has no `From<u32>`, hence `as`.
pub const LONGEST_SET: usize = GROUP_LENGTH as usize * MAX_MEMBERS;

// The constant is the definition's.
fn longest_set() -> usize
    ensures { result ≡ longest_set }
{
    LONGEST_SET
}

pub(crate) fn group_at(i: u16) -> u32
    ensures value { result ≡ group_at i }
    ensures upper_bound { result < 2 ^ 21 }
{
    GROUP_LENGTH * u32::from(i)
}

// No bytes means not lent.
pub fn set_in_use(second: &[u8]) -> CoefficientSet
    ensures { result ≡ set_in_use second.now }
{
    if second.is_empty() {
        CoefficientSet::Book
    } else {
        CoefficientSet::Second
    }
}
