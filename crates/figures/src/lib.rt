// The answer to a job as plain numbers in lent places, for a caller that has no use for a text.
#![tactic(auto)]

ghost use Rattle.std.specs.Prelude.{◌≡◌, ◌≤◌, IfOk, length};
ghost use Rattle.book.specs.Limits.{max_members};
ghost use Rattle.screening.specs.Screening.{answer_with};
ghost use Rattle.figures.specs.Numbers.{figures_of, lent, count_answered, set_left, figures_left, factors_left};
ghost use Rattle.figures.specs.Promises.{NumbersPromise};

use refusals::{Refusal, refuse_if};
use screening::{Figures, screen_job_with};

// What stands for a figure that is not there.
pub const NO_FIGURE: u64 = u64::MAX;

// A job's figures, a number each: the verdict's is 1 for 'below', 2 for 'close' and 3 for 'above', and a figure that is
// not there is `NO_FIGURE`. A caller in C lends a struct of the same fields.
#[repr(C)]
#[derive(Clone, Copy)]
pub struct FigureNumbers {
    pub verdict: u64,
    pub concentration: u64,
    pub level: u64,
    pub equilibrium: u64,
    pub working: u64,
    pub count: u64,
}

// The answer to a job, by a second set of coefficients where one is lent: the number of the set in use (1 for the
// book's, 2 for the second), its figures, the members' factors in the first places of `factors`, and how many these
// are. A refusal leaves all three as they were.
pub fn screen_numbers(
    job: &[u8],
    second: &[u8],
    set: &mut u32,
    figures: &mut FigureNumbers,
    factors: &mut [u64],
) -> Result<usize, Refusal>
    ensures answered { result ≡ count_answered (lent (answer_with job.now second.now) (length factors.old)) }
    ensures set { set.new ≡ set_left (lent (answer_with job.now second.now) (length factors.old)) set.old }
    ensures figures { figures.new
        ≡ figures_left (lent (answer_with job.now second.now) (length factors.old)) figures.old }
    ensures factors { factors.new
        ≡ factors_left (lent (answer_with job.now second.now) (length factors.old)) factors.old }
    ensures few { IfOk result (λ n. n ≤ max_members) }
    ensures sound { NumbersPromise job.now second.now result figures.new }
{
    let answer = screen_job_with(job, second)?;
    refuse_if(factors.len() < answer.count, Refusal::ListTooShort)?;
    factors[..answer.count].copy_from_slice(&answer.factors[..answer.count]);
    *set = u32::from(answer.figures.set);
    *figures = numbers_of(answer.figures, answer.count);
    Ok(answer.count)
}

fn numbers_of(figures: Figures, count: usize) -> FigureNumbers
    ensures { result ≡ figures_of figures count }
{
    let levels = figures.working;
    FigureNumbers {
        verdict: u64::from(figures.verdict),
        concentration: figures.concentration,
        level: u64::from(figures.level),
        equilibrium: levels.map_or(NO_FIGURE, |found| found.equilibrium),
        working: levels.map_or(NO_FIGURE, |found| found.micro),
        // A u64 has no `From<usize>`; the cast cuts nothing.
        count: count as u64,
    }
}
