// Screening of a room: from the bytes of a job and its chain book to the verdict on risk or yearly dose.
#![tactic(auto)]

mod admission;
mod check;
mod fields;
mod job;
mod screened;

ghost use Rattle.std.specs.Prelude.{◌≡◌, []};
ghost use Rattle.screening.specs.Promises.{AnswerPromise};
ghost use Rattle.screening.specs.Screening.{answer_of, answer_with};

pub use admission::{ScreeningInput, admit};
pub use fields::{JOB_LENGTH, LONGEST_JOB};
pub use job::{Answer, Figures};
use refusals::Refusal;
use screened::screened;
pub use screened::verdict_at;
pub use verdict::{Criterion, Verdict, WorkingLevels};

// The answer to any bytes: the first ground that is met, or else what is worked out, with a verdict that the exact
// balance bears out.
pub fn screen_job(job: &[u8]) -> Result<Answer, Refusal>
    ensures answered { result ≡ answer_of job.now }
    ensures sound { AnswerPromise job.now [] result }
{
    screen_job_with(job, &[])
}

// The same by a second set of coefficients, lent beside the job; no bytes mean that none is lent.
pub fn screen_job_with(job: &[u8], second: &[u8]) -> Result<Answer, Refusal>
    ensures answered { result ≡ answer_with job.now second.now }
    ensures sound { AnswerPromise job.now second.now result }
{
    let input = admit(job, second)?;
    Ok(screened(input, &job[JOB_LENGTH..], second))
}
