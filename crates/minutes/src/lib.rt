// The balance minute by minute: from a shut room, through periods of airing, to the share of each daughter in the air.
#![tactic(auto)]

mod checks;
mod limits;
mod passing;
mod step;

ghost use Rattle.std.specs.Prelude.{◌≡◌, length};
ghost use Rattle.minutes.specs.Periods.{periods_answer, periods_list};
ghost use Rattle.minutes.specs.Promises.{PeriodsPromise};

use checks::check_periods;
pub use limits::{MAX_MINUTES, MAX_PERIODS};
use passing::pass_periods;
use refusals::Refusal;

// The factors of every member after all the periods, each a rate and so many minutes, into the first places of `out`:
// how many they are; a refusal leaves `out` as it was.
pub fn factors_after(periods: &[u32], book: &[u8], out: &mut [u64]) -> Result<usize, Refusal>
    ensures answered { result ≡ periods_answer periods.now book.now (length out.old) }
    ensures written { out.new ≡ periods_list periods.now book.now out.old }
    ensures sound { PeriodsPromise periods.now book.now result out.new }
{
    check_periods(periods, book, out.len())?;
    let members = pass_periods(periods, book, out);
    Ok(members)
}
