// Reads a job and its chain book from the file that its argument names, or from standard input where it has none, and
// writes the report.
#![tactic(auto)]

use anyhow::{Context, Result};
use arguments::{ended, help_given, read_input, remark_text};
use report::{REPORT_ROOM, whole_report};
use screening::LONGEST_JOB;
use std::io::Write;
use std::process::ExitCode;

// One byte more than the longest job that can be accepted: a longer input has the same report as its first bytes.
const ENOUGH: usize = LONGEST_JOB + 1;

const USAGE: &str = "screen FILE, or screen < FILE";

fn main(rt: HostRuntime) -> ExitCode {
    let answered = answer(&rt);
    ended(&rt, answered)
}

// Not one function with `fan`: the check proves no bound `FnOnce` that names a const parameter, as the room is.
fn answer(rt: &HostRuntime) -> Result<()> {
    let words: Vec<String> = std::env::args(rt)?.collect(rt.alloc())?;
    if help_given(rt, &words, USAGE)? {
        return Ok(());
    }
    let job = read_input(rt, USAGE, ENOUGH)?;
    remark_text(rt, "screen", &job);
    let mut buffer = [0u8; REPORT_ROOM];
    let n = whole_report(&job, &mut buffer);
    rt.stdout()
        .write_all(&buffer[..n])
        .context("screen: the report could not be written")?;
    Ok(())
}
