// Five numbers that stand one after the other, each a u32: a member's own in the book, or those of another set.
ghost use Rattle.std.specs.Prelude.{◌≡◌, ◌<◌, ◌^◌};
ghost use Rattle.book.specs.Fields.{coefficient_at, five};

use super::layout::Coefficients;
use numbers::u32_at;
use std::array::from_fn;

// Number `which` of those from a place on.
pub fn coefficient_at(bytes: &[u8], at: u32, which: u16) -> u32
    requires { at < 2 ^ 31 }
    ensures { result ≡ coefficient_at bytes.now at which }
{
    u32_at(bytes, at + 4 * u32::from(which))
}

// All five.
pub fn coefficients_at(bytes: &[u8], at: u32) -> Coefficients
    requires { at < 2 ^ 31 }
    ensures { result ≡ five (coefficient_at bytes.now at) }
{
    // Below five, so that nothing is cut.
    from_fn(|which| coefficient_at(bytes, at, which as u16))
}
