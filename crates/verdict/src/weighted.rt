// Sums of weighted factors, which pass 64 bits.
ghost use Rattle.std.specs.Prelude.{◌≡◌, ◌+◌, ◌*◌, ◌^◌, ◌<◌, ◌≤◌, min, length};
ghost use Rattle.book.specs.Limits.{max_members};
ghost use Rattle.balance.specs.Balance.{G};
ghost use Rattle.numbers.specs.Sums.{sum_below};
ghost use Rattle.verdict.specs.HeldNumbers.{raised_in, term_in};

use crate::verdict::{Criterion, first_place, in_grains};
use balance::GRAINS;
use book::Coefficients;
use wide::Wide;

const DAYS_PER_YEAR: u128 = 365;

// 2^64.
const WORD: u128 = 0x1_0000_0000_0000_0000;

// 2^24: a word is so many times the parent's 2^40 grains.
const WORD_OF_GRAINS: u32 = 0x100_0000;

// The sum of one of the members' numbers times each factor, which is raised by the margin for each place before it, and
// capped. Sixteen terms of at most 96 bits stay within 128; in six limbs each addition would carry through all six.
#[tactic(auto, unfolding(numbers::specs::Sums::sum_below))]
pub(crate) fn column_sum(
    coefficients: &[Coefficients],
    factors: &[u64],
    which: usize,
    margin: u64,
    cap: u64,
) -> u128
    requires rows { length coefficients.now ≡ length factors.now }
    requires members { length factors.now ≤ max_members }
    requires which { which < 5 }
    requires margin { margin ≤ 2 }
    ensures exact { result ≡ sum_below (length factors.now) (raised_in coefficients.now factors.now which margin cap) }
    ensures small { result ≤ 2 ^ 36 * cap }
{
    let mut sum = 0;
    for (i, factor) in factors.iter().enumerate() {
        // A u64 has no `From<usize>`; the cast cuts nothing.
        let raised = factor.saturating_add(margin * i as u64).min(cap);
        sum += u128::from(raised) * u128::from(coefficients[i][which]);
    }
    sum
}

// A sum in six limbs.
pub(crate) fn widened(sum: u128) -> Wide
    ensures { result ≡ sum }
{
    let upper = (sum / WORD) as u64;
    let lower = (sum % WORD) as u64;
    in_grains(upper, WORD_OF_GRAINS).wrapping_add(Wide::from(lower))
}

// Low at one mBq/m³ with margin 0, High with margin 2.
// By columns, so that what the members have in common is multiplied once.
#[tactic(auto, using(crate::proofs::Columns::by_columns))]
pub(crate) fn weighted_sum(
    by: Criterion,
    coefficients: &[Coefficients],
    factors: &[u64],
    margin: u64,
) -> Wide
    requires rows { length coefficients.now ≡ length factors.now }
    requires members { length factors.now ≤ max_members }
    requires margin { margin ≤ 2 }
    ensures exact { result ≡ sum_below (length factors.now) (term_in by coefficients.now factors.now margin) }
    ensures small { result ≤ 2 ^ 117 }
{
    let first = first_place(by.kind);
    let inhaled = column_sum(coefficients, factors, first, margin, GRAINS);
    let submersed = column_sum(coefficients, factors, first + 1, margin, GRAINS);
    widened(DAYS_PER_YEAR * u128::from(by.x) * inhaled + u128::from(by.y) * submersed)
}
