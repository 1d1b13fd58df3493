// The verdict on risk or yearly dose, and the screening level.
ghost use Rattle.std.specs.Prelude.{◌≡◌, ◌+◌, ◌*◌, ◌≤◌};
ghost use Rattle.balance.specs.Balance.{G};
ghost use Rattle.verdict.specs.Verdict.{verdict_of, inhalation, submersion, bound_of, capped_quotient};
ghost use Rattle.verdict.specs.Verdict.{max_target, max_level};
ghost use Rattle.verdict.specs.HeldNumbers.{assessment_in, judged_on, Summable, SumsOf, Comparable, Judgeable};

use crate::weighted::weighted_sum;
use book::Coefficients;
use exposure::{HUNDREDTHS, Kind};
use wide::Wide;

// In mBq/m³.
const MAX_LEVEL: u32 = 4_000_000_000;

// 1 pCi is so many mBq.
const MILLIBECQUERELS: u64 = 37;

// 4 × 8,760, since the exposure is in quarter hours.
const QUARTER_HOURS_PER_YEAR: u64 = 35_040;

// What B has besides, for billionths of risk and for thousandths of mrem.
const RISK_SCALE: u32 = 100_000_000;

const DOSE_SCALE: u32 = 10_000_000;

// 2^20: the parent has 2^40 grains.
const ROOT_OF_GRAINS: u32 = 0x10_0000;

// What a room is judged by: the kind, its X and Y over both groups, and the target.
#[derive(Clone, Copy)]
pub struct Criterion {
    pub kind: Kind,
    pub x: u32,
    pub y: u32,
    pub target: u32,
}

// From best to worst.
#[derive(Clone, Copy, PartialEq, Eq, PartialOrd, Ord)]
pub enum Verdict {
    Below,
    Close,
    Above,
}

// What a verdict and a level are reached on: Low and High at one mBq/m³, and B.
#[derive(Clone, Copy)]
pub struct Sums {
    pub low: Wide,
    pub high: Wide,
    pub bound: Wide,
}

#[derive(Clone, Copy)]
pub struct Judgement {
    pub verdict: Verdict,
    pub level: u32,
}

// The place of the inhalation coefficient among a member's five numbers; the submersion coefficient follows it.
// It stays a number, since a place is what a row is read at.
pub(crate) fn first_place(kind: Kind) -> usize
    ensures { (result ≡ inhalation kind) × (result + 1 ≡ submersion kind) × (result ≤ 3) }
{
    match kind {
        Kind::Risk => 0,
        Kind::Dose => 2,
    }
}

// B.
fn bound_of(by: Criterion) -> Wide
    requires { by.target ≤ max_target }
    ensures { result ≡ bound_of by }
{
    let kind = by.kind;
    let target = u64::from(by.target);
    match kind {
        Kind::Risk => in_grains(
            target * MILLIBECQUERELS * QUARTER_HOURS_PER_YEAR,
            RISK_SCALE,
        ),
        Kind::Dose => in_grains(
            target * HUNDREDTHS * MILLIBECQUERELS * QUARTER_HOURS_PER_YEAR,
            DOSE_SCALE,
        ),
    }
}

// The amount times the scale times 2^40, the grains of the parent.
pub(crate) fn in_grains(amount: u64, scale: u32) -> Wide
    ensures { result ≡ amount * scale * G }
{
    Wide::from(amount)
        .wrapping_mul(scale)
        .wrapping_mul(ROOT_OF_GRAINS)
        .wrapping_mul(ROOT_OF_GRAINS)
}

// 'Below' where High is at most B, 'above' where Low is more, otherwise 'close'.
fn verdict_of(low: Wide, high: Wide, bound: Wide) -> Verdict
    ensures { result ≡ verdict_of low high bound }
{
    if high <= bound {
        Verdict::Below
    } else if low <= bound {
        Verdict::Close
    } else {
        Verdict::Above
    }
}

// The largest concentration up to the cap for which High is at most B.
#[tactic(auto, using(crate::proofs::Level::capped_is))]
fn level_of(bound: Wide, high_at_one: Wide) -> u32
    ensures { result ≡ capped_quotient max_level bound high_at_one }
{
    bound.capped_quotient(high_at_one, MAX_LEVEL)
}

// Low and High at one mBq/m³, and B, from the members' numbers and factors.
// These stay parameters, two slices of one length: a struct that lends them has two values in an `ensures`, so each
// clause says `of.entry.factors`.
#[tactic(auto, using(crate::proofs::Judging::sums_are))]
pub fn sums_of(by: Criterion, coefficients: &[Coefficients], factors: &[u64]) -> Sums
    requires { Summable by coefficients.now factors.now }
    ensures { SumsOf (assessment_in by coefficients.now factors.now) result.low result.high result.bound }
{
    let low = weighted_sum(by, coefficients, factors, 0);
    let high = weighted_sum(by, coefficients, factors, 2);
    let bound = bound_of(by);
    Sums { low, high, bound }
}

// The verdict at a concentration.
#[tactic(auto, using(crate::proofs::Judging::product_exact))]
pub fn verdict_by(sums: Sums, concentration: u64) -> Verdict
    requires { Comparable sums.low sums.high concentration }
    ensures { result ≡ verdict_of (concentration * sums.low) (concentration * sums.high) sums.bound }
{
    let low = sums.low;
    let high = sums.high;
    let bound = sums.bound;
    // Nothing is lost: a concentration is at most MAX_LEVEL.
    let times = concentration as u32;
    verdict_of(low.wrapping_mul(times), high.wrapping_mul(times), bound)
}

// The verdict at a concentration and the level, from the members' numbers and factors.
pub fn judged(
    by: Criterion,
    concentration: u64,
    coefficients: &[Coefficients],
    factors: &[u64],
) -> Judgement
    requires { Judgeable by concentration coefficients.now factors.now }
    ensures { result ≡ judged_on (assessment_in by coefficients.now factors.now) concentration }
{
    let sums = sums_of(by, coefficients, factors);
    let high = sums.high;
    let bound = sums.bound;
    Judgement {
        verdict: verdict_by(sums, concentration),
        level: level_of(bound, high),
    }
}
