// Writes the factors of the chain book in a file at the end of periods of airing,
// or a line every so many minutes of them.
#![tactic(auto)]

mod every;
mod lines;

use anyhow::{Context, Result, bail};
use arguments::{ended, help_given, read_file, read_number, read_numbers, remark_text};
use book::LONGEST_BOOK;
use every::write_every;
use lines::{write_after, write_factors};
use std::process::ExitCode;

// One byte more than the longest book that can be accepted: a longer one is refused by its counts or its length, as its
// first bytes are.
const ENOUGH: usize = LONGEST_BOOK + 1;

// More than the library takes, so that it is the library that refuses a list that is too long.
const MOST_NUMBERS: usize = 1000;

const USAGE: &str = "opening BOOKFILE RATE MINUTES [RATE MINUTES ...] [every N]";

const WANTED: &str = "a rate is whole hundredths per hour, so 18 for 0.18, and minutes are whole";

const WANTED_EVERY: &str = "N is whole minutes, 1 or more";

fn main(rt: HostRuntime) -> ExitCode {
    let answered = answer(&rt);
    ended(&rt, answered)
}

fn answer(rt: &HostRuntime) -> Result<()> {
    let words: Vec<String> = std::env::args(rt)?.collect(rt.alloc())?;
    if help_given(rt, &words, USAGE)? {
        return Ok(());
    }
    match words.as_slice() {
        [_, path, given @ .., word, every] if word.as_str() == "every" => {
            let book = book_in(rt, path)?;
            let periods = periods_of(rt, given)?;
            let every = read_number(every.as_str(), WANTED_EVERY).context("opening")?;
            write_every(rt, &periods, every, &book)
        }
        [_, path, given @ ..] if !given.is_empty() => {
            let book = book_in(rt, path)?;
            let periods = periods_of(rt, given)?;
            write_after(rt, &periods, &book, |factors| write_factors(rt, factors))
        }
        _ => bail!("usage: {USAGE}"),
    }
}

fn book_in(rt: &HostRuntime, path: &String) -> Result<Vec<u8>> {
    let book = read_file(rt, path.as_str(), ENOUGH)?;
    remark_text(rt, "opening", &book);
    Ok(book)
}

// `every` stands last but one, or nowhere.
fn periods_of(rt: &HostRuntime, given: &[String]) -> Result<Vec<u32>> {
    if given.iter().any(|word| word.as_str() == "every") {
        bail!("usage: {USAGE}");
    }
    if MOST_NUMBERS < given.len() {
        bail!("opening: more than 1,000 numbers");
    }
    read_numbers(rt, given, WANTED).context("opening")
}
