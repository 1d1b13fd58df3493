// The order of two numbers: the highest limbs that differ decide.
ghost use Rattle.std.specs.Prelude.{◌==◌};
ghost use Rattle.std.specs.Ordering.{nat_cmp, as_partial_cmp};
ghost use Rattle.std.proofs.Common.{rules};
ghost use Rattle.std.specs.Cmp.{partial_order_from_own_ties};
ghost use Rattle.std.specs.Cmp.Rules.{comparing};

use crate::number::Wide;
use std::cmp::Ordering;

impl PartialEq for Wide {
    ghost eq = { ◌==◌ };

    ghost laws = { Prim.search (comparing, rules) };

    fn eq(&self, other: &Wide) -> bool {
        self.limbs == other.limbs
    }
}

impl Eq for Wide {
    ghost laws = { Prim.search (comparing, rules) };
}

impl PartialOrd for Wide {
    ghost partial_cmp = { as_partial_cmp nat_cmp };

    ghost laws = { partial_order_from_own_ties (Prim.search (comparing, rules)) (Prim.search (comparing, rules)) };

    fn partial_cmp(&self, other: &Wide) -> Option<Ordering> {
        Some(self.cmp(other))
    }
}

impl Ord for Wide {
    ghost cmp = { nat_cmp };

    ghost total = { Prim.search (comparing, rules) };

    ghost matches_partial_cmp = { Prim.search (comparing, rules) };

    ghost matches_eq = { Prim.search (comparing, rules) };

    // By the limbs in turn: an array's own order has the limbs' laws, and these are the numbers'.
    fn cmp(&self, other: &Wide) -> Ordering {
        for (x, y) in self.limbs.iter().zip(other.limbs.iter()) {
            if x != y {
                return x.cmp(y);
            }
        }
        Ordering::Equal
    }
}
