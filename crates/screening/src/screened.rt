// What is worked out for an accepted job.
ghost use Rattle.std.specs.Prelude.{◌≡◌, ◌≤◌, length, take, replicate};
ghost use Rattle.book.specs.Limits.{max_members};
ghost use Rattle.book.specs.Fields.{members};
ghost use Rattle.balance.specs.Factors.{factor_list};
ghost use Rattle.verdict.specs.Verdict.{verdict_at};
ghost use Rattle.screening.specs.Screening.{assessment_at, screened_at};
ghost use Rattle.screening.specs.Screenable.{Judgeable, Screenable};
ghost use Rattle.verdict.specs.HeldNumbers.{number_in};
ghost use Rattle.screening.specs.Private.HeldNumbers.{figures_in, Figurable};

use crate::admission::ScreeningInput;
use crate::job::{Answer, Figures};
use balance::fill_accepted;
use book::{AcceptedChain, Coefficients, MAX_MEMBERS, Rate, read_chain};
use coefficients::{NumbersInUse, numbers_in_use};
use verdict::{Criterion, Verdict, alpha_sum, judged, sums_of, verdict_by, working_levels};

// The factors at a rate, in an array of zeros.
#[tactic(auto, using(book::proofs::Ranges::few))]
fn factor_list(v: Rate, chain: AcceptedChain<'_>) -> [u64; MAX_MEMBERS]
    ensures list { result ≡ factor_list v.hundredths chain.entry.chain.now.bytes.now (replicate max_members 0) }
    ensures enough { members chain.entry.chain.now.bytes.now ≤ length result }
{
    let mut list = [0u64; MAX_MEMBERS];
    fill_accepted(v, chain, &mut list);
    list
}

// The figures at a concentration, from the members' numbers and from their factors at the rate and at rate 0.
fn figures_of(
    by: Criterion,
    concentration: u64,
    numbers: &NumbersInUse,
    factors: &[u64],
    at_zero: &[u64],
) -> Figures
    requires few { numbers.now.members ≤ max_members }
    requires figurable { let rows = take numbers.now.members numbers.now.rows in
        Figurable by concentration numbers.now.divisor rows factors.now at_zero.now }
    ensures { let rows = take numbers.now.members numbers.now.rows in
        result ≡ figures_in numbers.now.set by concentration numbers.now.divisor rows factors.now at_zero.now }
{
    let coefficients = &numbers.rows[..numbers.members];
    let found = judged(by, concentration, coefficients, factors);
    let alpha = alpha_sum(coefficients, factors);
    let alpha_at_zero = alpha_sum(coefficients, at_zero);
    let verdict = found.verdict;
    Figures {
        set: numbers.set,
        concentration,
        verdict,
        level: found.level,
        working: working_levels(alpha, alpha_at_zero, concentration, numbers.divisor),
    }
}

// The verdict at a rate on what a room is judged by and on its concentration, with the members' numbers that are lent,
// in the array's first places. The book's chain is passed too, so that it is read once for however many rates. What a
// room is judged by and its concentration stay two, as in the definitions: a level is sought over every concentration.
pub fn verdict_at(
    by: Criterion,
    v: Rate,
    concentration: u64,
    chain: AcceptedChain<'_>,
    coefficients: &[Coefficients; MAX_MEMBERS],
) -> Verdict
    requires { Judgeable by concentration }
    ensures { let book = chain.entry.chain.now.bytes.now in
        result ≡ verdict_at (assessment_at by book (number_in coefficients.now) v.hundredths) concentration }
{
    let members = chain.members();
    let factors = factor_list(v, chain);
    let sums = sums_of(by, &coefficients[..members], &factors[..members]);
    verdict_by(sums, concentration)
}

// The answer for a room whose book and second set are checked, and read once.
pub(crate) fn screened(input: ScreeningInput, book: &[u8], second: &[u8]) -> Answer
    requires { Screenable input.by input.rate input.concentration book.now }
    ensures { result ≡ screened_at input.by book.now second.now input.rate input.concentration }
{
    let held = read_chain(book);
    let chain = AcceptedChain { chain: &held };
    let numbers = numbers_in_use(chain, second);
    let rate = Rate {
        hundredths: input.rate,
    };
    let list = factor_list(rate, chain);
    let at_zero = factor_list(Rate { hundredths: 0 }, chain);
    let count = chain.members();
    let figures = figures_of(
        input.by,
        input.concentration,
        &numbers,
        &list[..count],
        &at_zero[..count],
    );
    Answer {
        figures,
        factors: list,
        count,
    }
}
