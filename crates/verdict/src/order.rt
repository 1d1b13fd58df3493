// A verdict as a number, from best to worst.
ghost use Rattle.std.specs.Prelude.{◌≡◌};
ghost use Rattle.verdict.specs.Verdict.{verdict_order};

use crate::verdict::Verdict;

// As a caller in another language gets it: 0 is none, so that a place which nobody wrote is not 'below'.
impl From<Verdict> for u64 {
    ghost from_gives = { λ verdict number. number ≡ verdict_order verdict };

    fn from(verdict: Verdict) -> u64 {
        match verdict {
            Verdict::Below => 1,
            Verdict::Close => 2,
            Verdict::Above => 3,
        }
    }
}
