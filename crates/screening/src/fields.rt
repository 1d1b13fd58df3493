// The fields of a job; past the end a byte reads as 0.
ghost use Rattle.std.specs.Prelude.{◌≡◌, false, ◌≤◌};
ghost use Rattle.reading.specs.Reading.{unit_of, medium_of, reading_unusable};
ghost use Rattle.screening.specs.Job.{rate, kind, kind_of, medium, unit, zero_byte, target, attenuation};
ghost use Rattle.screening.specs.Job.{reading_of, group_at, exposure_of, longest_job};
ghost use Rattle.exposure.specs.Exposure.{exposure_out_of_range};
ghost use Rattle.screening.specs.Screening.{criterion_of};

use book::LONGEST_BOOK;
use exposure::{AcceptedExposure, Exposure, Group, Kind, totals_of};
use numbers::{u8_at, u16_at, u32_at, u64_at};
use reading::{Medium, Reading, Unit, bits_unusable, float, medium, unit};
use verdict::Criterion;

// Where the fields stand, as specs/Job.antt has them.
const RATE: u32 = 0;

const KIND: u32 = 4;

const MEDIUM: u32 = 5;

const UNIT: u32 = 6;

const ZERO: u32 = 7;

const TARGET: u32 = 8;

const ATTENUATION: u32 = 12;

const VALUE: u32 = 16;

const UNCERTAINTY: u32 = 24;

const CHILD: u32 = 32;

const ADULT: u32 = 40;

// The chain book follows the job.
pub const JOB_LENGTH: usize = 48;

// The most bytes that an accepted job has with its book.
pub const LONGEST_JOB: usize = JOB_LENGTH + LONGEST_BOOK;

// The constant is the definition's.
fn longest_job() -> usize
    ensures { result ≡ longest_job }
{
    LONGEST_JOB
}

pub(crate) fn rate_of(job: &[u8]) -> u32
    ensures { result ≡ rate job.now }
{
    u32_at(job, RATE)
}

pub(crate) fn kind_code(job: &[u8]) -> u8
    ensures { result ≡ kind job.now }
{
    u8_at(job, KIND)
}

// Kinds 0, 1; any other code is taken as 1, and the checks refuse it.
#[tactic(auto, using(crate::proofs::CodesTaken::kind_taken))]
pub(crate) fn kind_of(job: &[u8]) -> Kind
    ensures { result ≡ kind_of (kind job.now) }
{
    Kind::try_from(kind_code(job)).unwrap_or(Kind::Dose)
}

pub(crate) fn medium_code(job: &[u8]) -> u8
    ensures { result ≡ medium job.now }
{
    u8_at(job, MEDIUM)
}

pub(crate) fn medium_of(job: &[u8]) -> Medium
    ensures { result ≡ medium_of (medium job.now) }
{
    medium(medium_code(job))
}

pub(crate) fn unit_code(job: &[u8]) -> u8
    ensures { result ≡ unit job.now }
{
    u8_at(job, UNIT)
}

pub(crate) fn unit_of(job: &[u8]) -> Unit
    ensures { result ≡ unit_of (unit job.now) }
{
    unit(unit_code(job))
}

pub(crate) fn zero_byte(job: &[u8]) -> u8
    ensures { result ≡ zero_byte job.now }
{
    u8_at(job, ZERO)
}

pub(crate) fn target_of(job: &[u8]) -> u32
    ensures { result ≡ target job.now }
{
    u32_at(job, TARGET)
}

pub(crate) fn attenuation_of(job: &[u8]) -> u32
    ensures { result ≡ attenuation job.now }
{
    u32_at(job, ATTENUATION)
}

// Ground 7. It is told from the patterns, since a NaN's cannot become an f64.
#[tactic(auto, unfolding(reading::specs::Reading::reading_unusable))]
pub(crate) fn reading_unusable(job: &[u8]) -> bool
    ensures { result ≡ reading_unusable (reading_of job.now) }
{
    bits_unusable(u64_at(job, VALUE)) | bits_unusable(u64_at(job, UNCERTAINTY))
}

#[tactic(auto, unfolding(reading::specs::Reading::reading_unusable))]
pub(crate) fn reading_of(job: &[u8]) -> Reading
    requires { reading_unusable (reading_of job.now) ≡ false }
    ensures { result ≡ reading_of job.now }
{
    Reading {
        value: float(u64_at(job, VALUE)),
        uncertainty: float(u64_at(job, UNCERTAINTY)),
    }
}

fn group_at(job: &[u8], at: u32) -> Group
    requires { at ≤ 40 }
    ensures { result ≡ group_at job.now at }
{
    Group {
        days: u16_at(job, at),
        years: u16_at(job, at + 2),
        quarter_hours: u16_at(job, at + 4),
        breathing: u16_at(job, at + 6),
    }
}

// What the room is judged by.
pub(crate) fn criterion_of(job: &[u8]) -> Criterion
    requires { exposure_out_of_range (exposure_of job.now) ≡ false }
    ensures { result ≡ criterion_of job.now }
{
    let accepted = AcceptedExposure {
        exposure: exposure_of(job),
    };
    let kind = kind_of(job);
    let totals = totals_of(kind, accepted);
    Criterion {
        kind,
        x: totals.x,
        y: totals.y,
        target: target_of(job),
    }
}

pub(crate) fn exposure_of(job: &[u8]) -> Exposure
    ensures { result ≡ exposure_of job.now }
{
    Exposure {
        child: group_at(job, CHILD),
        adult: group_at(job, ADULT),
    }
}
