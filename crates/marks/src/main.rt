// Marks the entries of a printed table, in the file that the second argument names, against the chain book in the file
// that the first names.
#![tactic(auto)]

use anyhow::{Context, Result, bail};
use arguments::{ended, help_given, is_text, read_file};
use book::LONGEST_BOOK;
use marking::{MARKS_ROOM, marks_text};
use std::io::Write;
use std::process::ExitCode;
use tables::TABLE_ROOM;

// One byte more than the longest book, or table, that can be accepted: a longer one is refused as its first bytes are.
const ENOUGH: usize = LONGEST_BOOK + 1;

const ENOUGH_OF_A_TABLE: usize = TABLE_ROOM + 1;

const USAGE: &str = "marks BOOKFILE TABLEFILE";

fn main(rt: HostRuntime) -> ExitCode {
    let answered = answer(&rt);
    ended(&rt, answered)
}

fn answer(rt: &HostRuntime) -> Result<()> {
    let words: Vec<String> = std::env::args(rt)?.collect(rt.alloc())?;
    if help_given(rt, &words, USAGE)? {
        return Ok(());
    }
    let [_, path, table] = words.as_slice() else {
        bail!("usage: {USAGE}");
    };
    let book = read_file(rt, path.as_str(), ENOUGH)?;
    if is_text(&book) {
        let _ = eprintln!(rt;
            "marks: {path}: this is a text: `./jelmorand check TABLE FILE` reads texts"
        );
    }
    let text = read_file(rt, table.as_str(), ENOUGH_OF_A_TABLE)?;
    write_marks(rt, &text, &book)
}

fn write_marks(rt: &HostRuntime, text: &[u8], book: &[u8]) -> Result<()> {
    let mut buffer = [0u8; MARKS_ROOM];
    let n = marks_text(text, book, &mut buffer);
    rt.stdout()
        .write_all(&buffer[..n])
        .context("marks: the marks could not be written")?;
    Ok(())
}
