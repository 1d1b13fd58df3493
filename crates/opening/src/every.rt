// A line every so many minutes, counted from the shut room on, through all periods.
ghost use Rattle.std.specs.Prelude.{◌<◌};

use crate::lines::{write_after, write_line};
use anyhow::{Result, bail};
use book::MAX_MEMBERS;
use minutes::factors_after;

// All periods are tried first. Where they are refused,
// that is all that is written; where they are not, no part of them is refused.
pub(crate) fn write_every(
    rt: &HostRuntime,
    periods: &[u32],
    every: u32,
    book: &[u8],
) -> Result<()> {
    if every == 0 {
        bail!("opening: every 0: N is 1 or more");
    }
    let mut factors = [0u64; MAX_MEMBERS];
    if let Err(refusal) = factors_after(periods, book, &mut factors) {
        return Ok(rt.println(refusal)?);
    }
    let mut passed: u32 = 0;
    for last in (1..periods.len()).step_by(2) {
        write_period(rt, &periods[..=last], passed, every, book)?;
        // Periods that are accepted have 46,080 minutes at most, so that nothing is cut here, nor below.
        passed = passed.saturating_add(periods[last]);
    }
    if passed < every {
        bail!(
            "opening: every {every}: the periods have {passed} minutes, so there is no such line"
        );
    }
    Ok(())
}

// The lines of the last of these periods, before which so many minutes have passed.
fn write_period(
    rt: &HostRuntime,
    periods: &[u32],
    passed: u32,
    every: u32,
    book: &[u8],
) -> Result<()>
    requires { 0 < every }
{
    let mut part = periods.to_vec(rt.alloc())?;
    let Some(minutes) = part.pop() else {
        return Ok(());
    };
    for minute in 1..=minutes {
        let clock = passed.saturating_add(minute);
        if clock % every == 0 {
            part.push(minute)?;
            write_after(rt, &part, book, |factors| write_line(rt, clock, factors))?;
            part.pop();
        }
    }
    Ok(())
}
