// Division rounded up, and the powers of two to divide by.
ghost use Rattle.std.specs.Prelude.{◌≡◌, ◌+◌, ◌*◌, ◌/◌, ◌^◌, ◌<◌, ◌≤◌};
ghost use Rattle.reading.specs.Reading.{rounded_up};

// a × m / b rounded up. The product may pass 64 bits, so what divides evenly is taken out first.
#[tactic(auto, using(crate::proofs::Ceiling::of_product))]
pub(crate) fn product_rounded_up(a: u64, m: u64, b: u64) -> u64
    requires { (0 < b) × (b * m + b ≤ 2 ^ 64) × (a / b * m + m < 2 ^ 64) }
    ensures { result ≡ rounded_up (a * m) b }
{
    a / b * m + (a % b * m).div_ceil(b)
}

pub(crate) fn power_of_two(places: u64) -> u64
    requires { places < 64 }
    ensures { result ≡ 2 ^ places }
{
    1 << places
}
