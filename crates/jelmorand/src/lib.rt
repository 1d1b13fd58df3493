// The calls that a program in C, Rust or Python makes. Each takes plain numbers and lists and answers one signed
// number: the answer itself where it is not negative, and minus the number of the refusal otherwise.
#![tactic(auto)]

ghost use Rattle.std.specs.Prelude.{◌≡◌, ◌<◌, ◌^◌, [], IfOk, length, pos};
ghost use Rattle.balance.specs.Factors.{factor_list};
ghost use Rattle.minutes.specs.Periods.{periods_list};
ghost use Rattle.portfolios.specs.Run.{rates_run, answers_left, rows_left};
ghost use Rattle.portfolios.specs.Promises.{RowsPromise};
ghost use Rattle.jelmorand.specs.Answers.{run_number};
ghost use Rattle.report.specs.Report.{report_of};
ghost use Rattle.screening.specs.Screening.{answer_of, answer_with};
ghost use Rattle.figures.specs.Numbers.{lent, set_left, figures_left, factors_left};
ghost use Rattle.text.specs.Answered.{bytes_written};
ghost use Rattle.tables.specs.Answers.{table_buffer};
ghost use Rattle.refusals.specs.Grounds.{refused_number, answer_number};
ghost use Rattle.jelmorand.specs.Answers.{factors_number, report_number, screen_number, ScreenPromise, version};
ghost use Rattle.jelmorand.specs.Answers.{table_number, periods_number, lowest_rate_number, lowest_set_left};
ghost use Rattle.ventilation.specs.Lowest.{lowest_with};
ghost use Rattle.marking.specs.Answers.{marks_answer};
ghost use Rattle.jelmorand.specs.Answers.{marks_number, five_numbers, marks_left};

use figures::{FigureNumbers, screen_numbers};
use marking::{Marks, Place, mark_table};
use minutes::factors_after;
use portfolios::factors_at_rates;
use refusals::{Refusal, answer_number, refused_number};
use report::report_job;
use tables::tabulate;
use ventilation::lowest_rate_with;

// What the lowest rate is answered as where there is none: one more than the highest rate.
const NO_RATE: i64 = 100_001;

// 1,000,000 times the first part of the version, 1,000 times the second and the third.
const VERSION: i64 = 10_000;

// The version of these calls: one that has every call of a header has at least the header's.
#[unsafe(no_mangle)]
pub extern "C" fn jelmorand_version() -> i64
    ensures { result ≡ pos version }
{
    VERSION
}

// The marks as five numbers.
fn numbers_of(found: Marks) -> [u64; 5]
    ensures { result ≡ five_numbers found }
{
    let none = Place { line: 0, member: 0 };
    let first = found.first.unwrap_or(none);
    [
        found.right,
        found.close,
        found.wrong,
        first.line,
        first.member,
    ]
}

// The factors of every member at rate `v`, into the first places of `out`; a refusal leaves `out` as it was.
#[unsafe(no_mangle)]
pub extern "C" fn jelmorand_factors(v: u32, book: &[u8], out: &mut [u64]) -> i64
    ensures answered { result ≡ factors_number v book.now (length out.old) }
    ensures written { out.new ≡ factor_list v book.now out.old }
{
    answer_number(balance::factors(v, book, out))
}

// The report of a job, to the start of `out`, and its length; where there is no room for all of it that is refused,
// with `out` as it was. A job that is refused has a report.
#[unsafe(no_mangle)]
pub extern "C" fn jelmorand_report(job: &[u8], out: &mut [u8]) -> i64
    ensures answered { result ≡ report_number job.now (length out.old) }
    ensures written { out.new ≡ bytes_written (report_of job.now) out.old }
{
    answer_number(report_job(job, out).ok_or(Refusal::BufferTooShort))
}

// The figures of a job, a number each, and the members' factors in the first places of `factors`: how many these are. A
// refusal leaves both as they were.
#[unsafe(no_mangle)]
pub extern "C" fn jelmorand_screen(
    job: &[u8],
    figures: &mut FigureNumbers,
    factors: &mut [u64],
) -> i64
    ensures answered { result ≡ screen_number job.now [] (length factors.old) }
    ensures figures { figures.new ≡ figures_left (lent (answer_of job.now) (length factors.old)) figures.old }
    ensures factors { factors.new ≡ factors_left (lent (answer_of job.now) (length factors.old)) factors.old }
    ensures sound { ScreenPromise job.now [] result figures.new }
{
    let mut set = 0;
    jelmorand_screen_with(job, &[], &mut set, figures, factors)
}

// The same by a second set of coefficients, lent beside the job; no bytes mean that none is lent. `set` is then the
// number of the set in use, 1 for the book's and 2 for the second; a refusal leaves it as it was too.
#[unsafe(no_mangle)]
pub extern "C" fn jelmorand_screen_with(
    job: &[u8],
    second: &[u8],
    set: &mut u32,
    figures: &mut FigureNumbers,
    factors: &mut [u64],
) -> i64
    ensures answered { result ≡ screen_number job.now second.now (length factors.old) }
    ensures set { set.new ≡ set_left (lent (answer_with job.now second.now) (length factors.old)) set.old }
    ensures figures { figures.new
        ≡ figures_left (lent (answer_with job.now second.now) (length factors.old)) figures.old }
    ensures factors { factors.new
        ≡ factors_left (lent (answer_with job.now second.now) (length factors.old)) factors.old }
    ensures sound { ScreenPromise job.now second.now result figures.new }
{
    answer_number(screen_numbers(job, second, set, figures, factors))
}

// The factors at every rate of a list, each into a row of so many places of `rows`, and what the factor call answers
// there: n, or minus the number of the refusal, which leaves the row as it was. The answer is how many rates were run,
// which are those whose answers have a place.
#[unsafe(no_mangle)]
pub extern "C" fn jelmorand_factors_at_rates(
    rates: &[u32],
    book: &[u8],
    width: usize,
    answers: &mut [i64],
    rows: &mut [u64],
) -> i64
    ensures answered { result ≡ run_number rates.now answers.old }
    ensures answers { answers.new ≡ answers_left rates.now book.now width answers.old rows.old }
    ensures rows { rows.new ≡ rows_left rates.now book.now width answers.old rows.old }
    ensures sound { RowsPromise (rates_run rates.now answers.old) book.now width answers.new rows.new }
{
    // No list has 2^63 places.
    factors_at_rates(rates, book, width, answers, rows) as i64
}

// The table of a book at every rate of a list, to the start of `out`, and its length; a refusal leaves `out` as it was.
#[unsafe(no_mangle)]
pub extern "C" fn jelmorand_table(rates: &[u32], book: &[u8], out: &mut [u8]) -> i64
    ensures answered { result ≡ table_number rates.now book.now (length out.old) }
    ensures written { out.new ≡ table_buffer rates.now book.now out.old }
{
    answer_number(tabulate(rates, book, out))
}

// How a table's entries are marked by a book, five numbers: how many are right, close and wrong, and the line and the
// member of the first wrong one, or line 0 and member 0 where none is. The answer is how many entries were marked; a
// refusal leaves `marks` as it was.
#[unsafe(no_mangle)]
pub extern "C" fn jelmorand_marks(text: &[u8], book: &[u8], marks: &mut [u64; 5]) -> i64
    ensures answered { result ≡ marks_number text.now book.now }
    ensures marks { marks.new ≡ marks_left (marks_answer text.now book.now) marks.old }
{
    match mark_table(text, book) {
        Ok(found) => {
            *marks = numbers_of(found);
            (found.right + found.close + found.wrong) as i64
        }
        Err(refusal) => refused_number(refusal),
    }
}

// The factors of every member after periods of airing, each a rate and so many minutes, into the first places of `out`;
// a refusal leaves `out` as it was.
#[unsafe(no_mangle)]
pub extern "C" fn jelmorand_factors_after(periods: &[u32], book: &[u8], out: &mut [u64]) -> i64
    ensures answered { result ≡ periods_number periods.now book.now (length out.old) }
    ensures written { out.new ≡ periods_list periods.now book.now out.old }
{
    answer_number(factors_after(periods, book, out))
}

// The lowest rate at which the verdict on a job is 'below', or 100,001 where no rate gives it.
#[unsafe(no_mangle)]
pub extern "C" fn jelmorand_lowest_rate(job: &[u8]) -> i64
    ensures { result ≡ lowest_rate_number job.now [] }
{
    let mut set = 0;
    jelmorand_lowest_rate_with(job, &[], &mut set)
}

// The same by a second set of coefficients, lent beside the job; no bytes mean that none is lent. `set` is then the
// number of the set in use; a refusal leaves it as it was.
#[unsafe(no_mangle)]
pub extern "C" fn jelmorand_lowest_rate_with(job: &[u8], second: &[u8], set: &mut u32) -> i64
    ensures answered { result ≡ lowest_rate_number job.now second.now }
    ensures set { set.new ≡ lowest_set_left (lowest_with job.now second.now) set.old }
{
    match lowest_rate_with(job, second) {
        Ok(lowest) => {
            *set = u32::from(lowest.set);
            lowest.rate.map_or(NO_RATE, i64::from)
        }
        Err(refusal) => refused_number(refusal),
    }
}
