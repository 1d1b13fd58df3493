// The lines of a run, a block of rates at a time.
ghost use Rattle.std.specs.Prelude.{◌≤◌, ◌<◌, length};

use anyhow::{Context, Result};
use book::MAX_MEMBERS;
use lines::{FourDigits, LINE_ROOM, write_lines};
use std::io::Write;

// So many rates are worked out, and their lines sent out, at once.
const BLOCK: usize = 512;

// Where a block's answers, rows and lines are written.
#[derive(Drop)]
struct Room {
    answers: [i64; BLOCK],
    rows: [u64; BLOCK * MAX_MEMBERS],
    text: [u8; BLOCK * LINE_ROOM],
    fours: FourDigits,
}

// A line for each rate from `from` to `to`, a step apart.
pub(crate) fn write_run(rt: &HostRuntime, book: &[u8], from: u32, to: u32, step: u32) -> Result<()>
    requires { 0 < step }
{
    let mut room = Room {
        answers: [0; BLOCK],
        rows: [0; BLOCK * MAX_MEMBERS],
        text: [0; BLOCK * LINE_ROOM],
        fours: FourDigits::new(),
    };
    let mut rates = Vec::new(rt.alloc());
    // A usize has no `From<u32>`; the cast cuts nothing.
    for rate in (from..=to).step_by(step as usize) {
        rates.push(rate)?;
        if rates.len() == BLOCK {
            send_lines(rt, &rates, book, &mut room)?;
            rates.clear();
        }
    }
    send_lines(rt, &rates, book, &mut room)
}

// The lines of these rates, to standard output.
fn send_lines(rt: &HostRuntime, rates: &[u32], book: &[u8], room: &mut Room) -> Result<()>
    requires { length rates.now ≤ 512 }
{
    let start = write_lines(
        rates,
        book,
        &mut room.answers,
        &mut room.rows,
        &mut room.text,
        &room.fours,
    );
    rt.stdout()
        .write_all(&room.text[start..])
        .context("portfolio: the lines could not be written")
}
