// A number of grains in thousandths of 10^-e of a grain, as far as a number of four digits can tell.
ghost use Rattle.std.specs.Prelude.{◌≡◌, ◌+◌, ◌*◌, ◌^◌, min};
ghost use Rattle.printed.specs.Private.Scaled.{most_scaled};

use balance::GRAINS;

// Above what any number of four digits, and half a unit besides, comes to. So one word holds ten times what is kept.
const MOST: u64 = 10_000 * GRAINS;

// x × 10^(e + 3), or `MOST` where it is more.
#[tactic(auto, using(crate::proofs::Capped::kept_place))]
pub(crate) fn scaled(x: u64, e: u64) -> u64
    ensures { result ≡ min (x * 10 ^ (e + 3)) most_scaled }
{
    let mut product = (x.min(MOST) * 1000).min(MOST);
    for _place in 0..e {
        product = (product * 10).min(MOST);
    }
    product
}
