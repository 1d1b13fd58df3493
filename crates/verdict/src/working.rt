// The equilibrium factor and the working levels.
ghost use Rattle.std.specs.Prelude.{◌≡◌, ◌*◌, ◌^◌, ◌≤◌, length};
ghost use Rattle.book.specs.Limits.{max_members};
ghost use Rattle.verdict.specs.WorkingLevels.{working_levels};
ghost use Rattle.verdict.specs.HeldNumbers.{alpha_in, WorkingInRange};

use crate::weighted::{column_sum, widened};
use book::Coefficients;
use wide::Wide;

// One whole, in millionths.
const MILLION: u32 = 1_000_000;

// The place of the alpha energy weight among a member's five numbers.
const ALPHA: usize = 4;

// mBq/m³ in one pCi/L; W is in tenths of that.
const PER_PICOCURIE: u64 = 37_000;

const TENTHS: u64 = 10;

// Fm in millionths, and micro working levels.
#[derive(Clone, Copy)]
pub struct WorkingLevels {
    pub equilibrium: u64,
    pub micro: u64,
}

// The sum of alpha energy weight times factor over every member but the gas; like Low it does not pass six limbs.
#[tactic(auto, using(crate::proofs::Columns::alpha_column))]
pub fn alpha_sum(coefficients: &[Coefficients], factors: &[u64]) -> Wide
    requires rows { length coefficients.now ≡ length factors.now }
    requires members { length factors.now ≤ max_members }
    ensures exact { result ≡ alpha_in coefficients.now factors.now }
    ensures small { result ≤ 2 ^ 117 }
{
    // The gas is the first member, where there is one.
    let first = factors.len().min(1);
    let rows = &coefficients[first..];
    let others = &factors[first..];
    // With no margin, and a cap that no factor passes.
    widened(column_sum(rows, others, ALPHA, 0, u64::MAX))
}

// From the alpha sums at the rate and at rate 0: none where no member but the gas has an alpha energy weight and a
// factor. The first is no more than the second, so the quotient is at most one whole.
#[tactic(auto, unfolding(crate::specs::WorkingLevels::working_levels))]
pub fn working_levels(
    at_rate: Wide,
    at_zero: Wide,
    concentration: u64,
    divisor: u16,
) -> Option<WorkingLevels>
    requires { WorkingInRange at_rate at_zero concentration divisor }
    ensures { result ≡ working_levels at_rate at_zero concentration divisor }
{
    if at_zero == Wide::from(0) {
        return None;
    }
    let quotient = at_rate
        .wrapping_mul(MILLION)
        .capped_quotient(at_zero, MILLION);
    let equilibrium = u64::from(quotient);
    Some(WorkingLevels {
        equilibrium,
        micro: TENTHS * concentration * equilibrium / (PER_PICOCURIE * u64::from(divisor)),
    })
}
