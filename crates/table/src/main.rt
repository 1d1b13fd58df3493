// Writes the table of the chain book in a file, at the rates that follow its name, or at those of source 000's radon
// table where none do.
#![tactic(auto)]

use anyhow::{Context, Result, bail};
use arguments::{ended, help_given, read_file, read_numbers, remark_text};
use book::LONGEST_BOOK;
use std::io::Write;
use std::process::ExitCode;
use tables::{SOURCE_RATES, TABLE_ROOM, tabulate};

// One byte more than the longest book that can be accepted: a longer one is refused as its first bytes are.
const ENOUGH: usize = LONGEST_BOOK + 1;

// More than a table has, so that it is the library that refuses a list that is too long.
const MOST_RATES: usize = 1000;

const USAGE: &str = "table BOOKFILE [RATE ...]";

const WANTED: &str = "a rate is whole hundredths per hour, so 18 for 0.18";

fn main(rt: HostRuntime) -> ExitCode {
    let answered = answer(&rt);
    ended(&rt, answered)
}

fn answer(rt: &HostRuntime) -> Result<()> {
    let words: Vec<String> = std::env::args(rt)?.collect(rt.alloc())?;
    if help_given(rt, &words, USAGE)? {
        return Ok(());
    }
    let [_, path, given @ ..] = words.as_slice() else {
        bail!("usage: {USAGE}");
    };
    let book = read_file(rt, path.as_str(), ENOUGH)?;
    remark_text(rt, "table", &book);
    if given.is_empty() {
        return write_table(rt, &SOURCE_RATES, &book);
    }
    if MOST_RATES < given.len() {
        bail!("table: more than 1,000 rates");
    }
    let rates = read_numbers(rt, given, WANTED).context("table")?;
    write_table(rt, &rates, &book)
}

fn write_table(rt: &HostRuntime, rates: &[u32], book: &[u8]) -> Result<()> {
    let mut buffer = [0u8; TABLE_ROOM];
    match tabulate(rates, book, &mut buffer) {
        Ok(length) => rt
            .stdout()
            .write_all(&buffer[..length])
            .context("table: the table could not be written")?,
        Err(refusal) => rt.println(refusal)?,
    }
    Ok(())
}
