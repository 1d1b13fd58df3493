// Sum and small multiple, by one chain of carries.
ghost use Rattle.std.specs.Prelude.{◌≡◌, ◌+◌, ◌*◌, ◌%◌, ◌<◌};
ghost use Rattle.wide.specs.Value.{modulus};

use crate::columns::{Settled, limb_product, limb_sum, settle};
use crate::number::Wide;
use std::array::from_fn;

impl Wide {
    // The sum modulo 2^192.
    pub fn wrapping_add(self, other: Wide) -> Wide
        ensures { result ≡ (self + other) % modulus }
    {
        let a = self.limbs;
        let b = other.limbs;
        let settled = settle(from_fn(|i| limb_sum(a[i], b[i])));
        settled.number
    }

    // k times the number modulo 2^192.
    pub fn wrapping_mul(self, k: u32) -> Wide
        ensures { result ≡ self * k % modulus }
    {
        let product = self.exact_multiple(k);
        product.number
    }

    // k times the number, whole: what passes 2^192 is in the carry.
    pub(crate) fn exact_multiple(self, k: u32) -> Settled
        ensures whole { self * k ≡ result.number + modulus * result.carry }
        ensures within { result.number < modulus }
    {
        let a = self.limbs;
        settle(from_fn(|i| limb_product(a[i], k)))
    }
}
