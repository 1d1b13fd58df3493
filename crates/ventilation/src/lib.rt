// How much fan is enough: the lowest rate of ventilation at which the verdict on a job is 'below'.
#![tactic(auto)]

mod search;

ghost use Rattle.std.specs.Prelude.{◌≡◌, []};
ghost use Rattle.ventilation.specs.Lowest.{lowest_of, lowest_with};
ghost use Rattle.ventilation.specs.Promises.{LowestPromise};

use coefficients::{CoefficientSet, set_in_use};
use refusals::Refusal;
use screening::{JOB_LENGTH, admit};
use search::lowest_for;

// The rate, none where no rate from 0 to 100,000 gives 'below', and the set of coefficients that it was sought by.
#[derive(Clone, Copy)]
pub struct LowestRate {
    pub rate: Option<u32>,
    pub set: CoefficientSet,
}

// The answer to any bytes: the first ground that is met, or else the lowest rate at which the verdict is 'below'. The
// job's own rate is checked, and otherwise ignored.
pub fn lowest_rate(job: &[u8]) -> Result<LowestRate, Refusal>
    ensures answered { result ≡ lowest_of job.now }
    ensures sound { LowestPromise job.now [] result }
{
    lowest_rate_with(job, &[])
}

// The same by a second set of coefficients, lent beside the job; no bytes mean that none is lent.
pub fn lowest_rate_with(job: &[u8], second: &[u8]) -> Result<LowestRate, Refusal>
    ensures answered { result ≡ lowest_with job.now second.now }
    ensures sound { LowestPromise job.now second.now result }
{
    let input = admit(job, second)?;
    Ok(LowestRate {
        rate: lowest_for(input, &job[JOB_LENGTH..], second),
        set: set_in_use(second),
    })
}
