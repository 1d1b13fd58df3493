// The lines that the program writes to standard output.
use anyhow::{Context, Result};
use book::MAX_MEMBERS;
use entry::entry_of;
use minutes::factors_after;
use std::io::Write;

// What is written of the factors after the periods, or that the call refuses them.
pub(crate) fn write_after<F: FnOnce(&[u64]) -> Result<()>>(
    rt: &HostRuntime,
    periods: &[u32],
    book: &[u8],
    write: F,
) -> Result<()>
    requires { F.IsAlwaysCallable write }
{
    let mut factors = [0u64; MAX_MEMBERS];
    match factors_after(periods, book, &mut factors) {
        Ok(count) => {
            write(&factors[..count]).context("opening: the factors could not be written")
        }
        Err(refusal) => Ok(rt.println(refusal)?),
    }
}

// A line for each member, as `screen` writes them.
pub(crate) fn write_factors(rt: &HostRuntime, factors: &[u64]) -> Result<()> {
    for (member, factor) in factors.iter().enumerate() {
        println!(rt; "factor {member} {factor}")?;
    }
    Ok(())
}

// A table's line, with the minute in place of the rate.
pub(crate) fn write_line(rt: &HostRuntime, minute: u32, factors: &[u64]) -> Result<()> {
    print!(rt; "{minute}")?;
    for factor in factors {
        rt.stdout().write_all(b" ")?;
        rt.stdout().write_all(&entry_of(*factor))?;
    }
    println!(rt; "")?;
    Ok(())
}
