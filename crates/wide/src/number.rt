// A whole number below 2^192, by value.
ghost use Rattle.std.specs.Prelude.{◌≡◌};
ghost use Rattle.wide.specs.Value.{value};

use crate::columns::{low, upper};
use std::marker::Model;

// In six limbs of 32 bits, the highest first, so that the first limbs that differ order two numbers.
#[derive(Clone, Copy)]
pub struct Wide {
    pub(crate) limbs: [u32; 6],
}

impl Model for Wide {
    ghost use Rattle.std.specs.Prelude.{ℕ};
    ghost use Rattle.std.proofs.Common.{ap};
    ghost use Rattle.wide.specs.Limbs.{SixLimbs, number, limbs_of, limbs_of_number};

    ghost Value = { ℕ };

    ghost view = { λ w. number w.limbs };

    ghost invariant = { λ w. SixLimbs w.limbs };

    ghost inverse = { λ n. record { limbs = limbs_of n } };

    ghost inverse_ok = { λ w six. ap (λ limbs. record { limbs = limbs }) (limbs_of_number w.limbs six) };
}

impl From<u64> for Wide {
    ghost from_gives = { λ x number. number ≡ x };

    fn from(x: u64) -> Wide {
        Wide {
            limbs: [0, 0, 0, 0, upper(x), low(x)],
        }
    }
}

impl Wide {
    // The number that six limbs stand for, the lowest first.
    pub fn from_limbs(limbs: [u32; 6]) -> Wide
        ensures { result ≡ value limbs }
    {
        let [a, b, c, d, e, f] = limbs;
        Wide {
            limbs: [f, e, d, c, b, a],
        }
    }

    // Its six limbs, the lowest first.
    pub fn to_limbs(self) -> [u32; 6]
        ensures { value result ≡ self }
    {
        let [a, b, c, d, e, f] = self.limbs;
        [f, e, d, c, b, a]
    }
}
