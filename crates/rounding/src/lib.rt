// A quotient rounded to the nearest whole, halves up.
#![tactic(auto)]

ghost use Rattle.std.specs.Prelude.{◌≡◌};
ghost use Rattle.rounding.specs.Nearest.{nearest};

// a / b to the nearest whole, halves up; 0 where b is 0.
#[tactic(auto, using(crate::proofs::Between::by_rest))]
pub fn nearest(a: u64, b: u64) -> u64
    ensures { result ≡ nearest a b }
{
    if b == 0 {
        return 0;
    }
    let whole = a / b;
    let rest = a % b;
    if rest < b - rest {
        return whole;
    }
    whole + 1
}
