// The checks of a job's own fields, grounds 1 to 8.
ghost use Rattle.std.specs.Prelude.{◌≡◌};
ghost use Rattle.refusals.specs.Grounds.{first_met};
ghost use Rattle.screening.specs.Job.{intake_of};
ghost use Rattle.screening.specs.JobGrounds.{code_unknown, attenuation_out_of_range, field_grounds};

use crate::fields::{
    JOB_LENGTH, attenuation_of, exposure_of, kind_code, medium_code, medium_of, rate_of,
    reading_of, reading_unusable, target_of, unit_code, unit_of, zero_byte,
};
use book::MAX_RATE;
use exposure::{Kind, out_of_range};
use reading::{Medium, ReadingError, Unit, WHOLE_ATTENUATION, intake_in};
use refusals::{Refusal, refuse_if};

const MAX_TARGET: u32 = 1_000_000_000;

// Ground 2.
#[tactic(auto, using(crate::proofs::CodesTaken::unknown), unfolding(crate::specs::JobGrounds::code_unknown))]
fn code_unknown(job: &[u8]) -> bool
    ensures { result ≡ code_unknown job.now }
{
    Kind::try_from(kind_code(job)).is_err()
        | Medium::try_from(medium_code(job)).is_err()
        | Unit::try_from(unit_code(job)).is_err()
        | (zero_byte(job) != 0)
}

// Ground 5.
#[tactic(auto, using(crate::proofs::CodesTaken::indoor), unfolding(crate::specs::JobGrounds::attenuation_out_of_range))]
fn attenuation_out_of_range(job: &[u8]) -> bool
    ensures { result ≡ attenuation_out_of_range job.now }
{
    let af = attenuation_of(job);
    (af > WHOLE_ATTENUATION) | ((medium_of(job) == Medium::IndoorAir) & (af != WHOLE_ATTENUATION))
}

// Grounds 1 to 6. Past the end a field reads as 0.
pub(crate) fn check_fields(job: &[u8]) -> Result<(), Refusal>
    ensures { result ≡ first_met (field_grounds job.now) }
{
    refuse_if(job.len() < JOB_LENGTH, Refusal::JobTooShort)?;
    refuse_if(code_unknown(job), Refusal::CodeUnknown)?;
    refuse_if(rate_of(job) > MAX_RATE, Refusal::RateTooHigh)?;
    refuse_if(target_of(job) > MAX_TARGET, Refusal::TargetTooHigh)?;
    refuse_if(
        attenuation_out_of_range(job),
        Refusal::AttenuationOutOfRange,
    )?;
    refuse_if(out_of_range(exposure_of(job)), Refusal::ExposureOutOfRange)
}

// The intake of the job's reading. A NaN's pattern cannot become an f64, so the patterns are looked at first.
pub(crate) fn intake_of(job: &[u8]) -> Result<u64, ReadingError>
    ensures { result ≡ intake_of job.now }
{
    if reading_unusable(job) {
        return Err(ReadingError::Unusable);
    }
    intake_in(
        unit_of(job),
        medium_of(job),
        attenuation_of(job),
        reading_of(job),
    )
}
