// The checks of a whole job and of a second set, and what is taken from a job that passes them.
ghost use Rattle.screening.specs.JobGrounds.{field_grounds};
ghost use Rattle.std.specs.Prelude.{◌≡◌, Ok};
ghost use Rattle.refusals.specs.Grounds.{first_met};
ghost use Rattle.screening.specs.Admission.{admission_with, admission_of};

use crate::check::{check_fields, intake_of};
use crate::fields::{JOB_LENGTH, criterion_of, rate_of};
use book::check_book;
use coefficients::check_second;
use refusals::Refusal;
use verdict::Criterion;

// What a room is screened on. That its numbers are within their limits is `Screenable`, in the contracts of those who
// take it: a ghost field here would put a proof into the definition of what `admit` answers.
#[derive(Clone, Copy)]
pub struct ScreeningInput {
    pub by: Criterion,
    pub rate: u32,
    pub concentration: u64,
}

// What any bytes are taken for: the first ground that is met, or else the room, with its reading taken once and its
// book checked once. No second bytes mean that no second set is lent.
pub fn admit(job: &[u8], second: &[u8]) -> Result<ScreeningInput, Refusal>
    ensures { result ≡ admission_of job.now second.now }
{
    check_fields(job)?;
    admit_with(job, &job[JOB_LENGTH..], second)
}

// The same for a job whose own fields pass, with its book.
fn admit_with(job: &[u8], book: &[u8], second: &[u8]) -> Result<ScreeningInput, Refusal>
    requires { first_met (field_grounds job.now) ≡ Ok tt }
    ensures { result ≡ admission_with job.now book.now second.now }
{
    let concentration = intake_of(job)?;
    check_book(book)?;
    check_second(book, second)?;
    Ok(ScreeningInput {
        by: criterion_of(job),
        rate: rate_of(job),
        concentration,
    })
}
