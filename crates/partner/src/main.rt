// Reads a second set of coefficients from the file that its first argument names, and a job with its chain book from
// the file that its second names, or from standard input where it has none. Writes which set is in use, the report, and
// the lowest rate at which the verdict is 'below', both by that set.
#![tactic(auto)]

use anyhow::{Context, Result, bail};
use arguments::{ended, first_bytes, help_given, is_text, read_file};
use coefficients::LONGEST_SET;
use report::{PARTNER_ROOM, partner_text};
use screening::LONGEST_JOB;
use std::io::Write;
use std::process::ExitCode;

// One byte more than the longest job, or set, that can be accepted: a longer one has the same text as its first bytes.
const ENOUGH: usize = LONGEST_JOB + 1;

const ENOUGH_OF_A_SET: usize = LONGEST_SET + 1;

const USAGE: &str = "partner SETFILE JOBFILE, or partner SETFILE < JOBFILE";

fn main(rt: HostRuntime) -> ExitCode {
    let answered = answer(&rt);
    ended(&rt, answered)
}

fn answer(rt: &HostRuntime) -> Result<()> {
    let words: Vec<String> = std::env::args(rt)?.collect(rt.alloc())?;
    if help_given(rt, &words, USAGE)? {
        return Ok(());
    }
    match words.as_slice() {
        [_, set] => {
            let second = set_in(rt, set)?;
            let job = first_bytes(rt.alloc(), rt.stdin(), ENOUGH).context("standard input")?;
            write_text(rt, &job, &second)
        }
        [_, set, path] => {
            let second = set_in(rt, set)?;
            let job = read_file(rt, path.as_str(), ENOUGH)?;
            write_text(rt, &job, &second)
        }
        _ => bail!("usage: {USAGE}"),
    }
}

// Nobody names a file in order to lend nothing, so that an empty one is a mistake.
fn set_in(rt: &HostRuntime, path: &String) -> Result<Vec<u8>> {
    let second = read_file(rt, path.as_str(), ENOUGH_OF_A_SET)?;
    if second.is_empty() {
        bail!("partner: {path}: an empty file is no second set");
    }
    Ok(second)
}

fn write_text(rt: &HostRuntime, job: &[u8], second: &[u8]) -> Result<()> {
    if is_text(job) || is_text(second) {
        let _ = eprintln!(rt;
            "partner: this is a text: `./jelmorand screen FILE --coefficients SETFILE` reads texts"
        );
    }
    let mut buffer = [0u8; PARTNER_ROOM];
    let n = partner_text(job, second, &mut buffer);
    rt.stdout()
        .write_all(&buffer[..n])
        .context("partner: the text could not be written")?;
    Ok(())
}
