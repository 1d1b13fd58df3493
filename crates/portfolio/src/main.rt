// Writes a line for each of many rates of the chain book in a file: the factor of every member there, or the number of
// the refusal.
#![tactic(auto)]

mod blocks;

use anyhow::{Context, Result, bail};
use arguments::{ended, help_given, read_file, read_numbers, remark_text};
use blocks::write_run;
use book::LONGEST_BOOK;
use std::process::ExitCode;

// One byte more than the longest book that can be accepted: a longer one is refused as its first bytes are.
const ENOUGH: usize = LONGEST_BOOK + 1;

const USAGE: &str = "portfolio BOOKFILE FROM TO STEP";

const WANTED: &str = "a rate is whole hundredths per hour, so 18 for 0.18";

fn main(rt: HostRuntime) -> ExitCode {
    let answered = answer(&rt);
    ended(&rt, answered)
}

fn answer(rt: &HostRuntime) -> Result<()> {
    let words: Vec<String> = std::env::args(rt)?.collect(rt.alloc())?;
    if help_given(rt, &words, USAGE)? {
        return Ok(());
    }
    let [_, path, given @ ..] = words.as_slice() else {
        bail!("usage: {USAGE}");
    };
    let rates = read_numbers(rt, given, WANTED).context("portfolio")?;
    let [from, to, step] = rates.as_slice() else {
        bail!("usage: {USAGE}");
    };
    if *step == 0 {
        bail!("portfolio: STEP is 0: it is 1 or more");
    }
    if to < from {
        bail!("portfolio: FROM, {from}, is over TO, {to}");
    }
    let book = read_file(rt, path.as_str(), ENOUGH)?;
    remark_text(rt, "portfolio", &book);
    write_run(rt, &book, *from, *to, *step)
}
