// The capped quotient, found by halving the span that it must lie in.
ghost use Rattle.std.specs.Prelude.{◌≡◌, ◌*◌, nat_le};
ghost use Rattle.wide.specs.Quotient.{LargestQuotient};

use crate::number::Wide;
use numbers::first_where;

impl Wide {
    // The largest q from 0 to cap with q times b at most the number: cap where b is 0.
    pub fn capped_quotient(self, b: Wide, cap: u32) -> u32
        ensures { LargestQuotient self b cap result }
    {
        first_where(cap, |q| !b.multiple_at_most(q + 1, self))
    }

    // Whether k times the number is at most a, also where the product passes 2^192.
    fn multiple_at_most(self, k: u32, a: Wide) -> bool
        ensures { result ≡ nat_le (k * self) a }
    {
        // Read for the proof alone: six limbs hold less than 2^192, so a product with a carry is more.
        let _ = &a.limbs;
        let product = self.exact_multiple(k);
        product.carry == 0 && product.number <= a
    }
}
