// What a call answers, and what the list or the buffer that is lent to it holds afterwards.
ghost use Rattle.std.specs.Prelude.{◌≡◌, ◌++◌, IfOk, OnOk};
ghost use Rattle.case_texts.specs.Texts.{factors_case, opening_case, table_case, list_line, answered};

use super::parts::{numbers, rest};
use super::words::{push_number, push_places};
use balance::factors;
use minutes::factors_after;
use numbers::{u16_at, u32_at};
use refusals::Refusal;
use std::alloc::{AllocError, Global};
use tables::tabulate;

// What every place of a lent list, or of a lent buffer, holds before a call.
pub(crate) const PLACE: u64 = 7;

const BYTE: u8 = b'#';

// The factor call: its answer, and then every place of the lent list.
pub fn factors_case(alloc: Global, body: &[u8]) -> Result<Vec<u8>, AllocError>
    ensures { IfOk result (λ text. text.items ≡ factors_case body.now) }
{
    let rate = u32_at(body, 0);
    let mut list = vec![in alloc; PLACE; usize::from(u16_at(body, 4))]?;
    let answer = factors(rate, rest(body, 6), &mut list);
    written(alloc, answer, &list)
}

// The call for periods, in the same way.
pub fn opening_case(alloc: Global, body: &[u8]) -> Result<Vec<u8>, AllocError>
    ensures { IfOk result (λ text. text.items ≡ opening_case body.now) }
{
    let mut list = vec![in alloc; PLACE; usize::from(u16_at(body, 0))]?;
    let count = u16_at(body, 2);
    let periods = numbers(alloc, body, 4, count)?;
    let answer = factors_after(&periods, rest(body, 4 + 4 * usize::from(count)), &mut list);
    written(alloc, answer, &list)
}

// The table call: its answer, and then every byte of the lent buffer.
pub fn table_case(alloc: Global, body: &[u8]) -> Result<Vec<u8>, AllocError>
    ensures { IfOk result (λ text. text.items ≡ table_case body.now) }
{
    // A usize has no `From<u32>`; the cast cuts nothing.
    let mut buffer = vec![in alloc; BYTE; u32_at(body, 0) as usize]?;
    let count = u16_at(body, 4);
    let rates = numbers(alloc, body, 6, count)?;
    let answer = tabulate(&rates, rest(body, 6 + 4 * usize::from(count)), &mut buffer);
    let mut text = Vec::new(alloc);
    push_answer(&mut text, b"written ", answer)?;
    text.extend_from_slice(b"\n")?;
    text.extend_from_slice(&buffer)?;
    text.extend_from_slice(b"\n")?;
    Ok(text)
}

fn written(
    alloc: Global,
    answer: Result<usize, Refusal>,
    list: &[u64],
) -> Result<Vec<u8>, AllocError>
    ensures { IfOk result (λ text. text.items ≡ list_line answer list.now) }
{
    let mut text = Vec::new(alloc);
    push_answer(&mut text, b"filled ", answer)?;
    text.extend_from_slice(b" :")?;
    push_places(&mut text, list)?;
    text.extend_from_slice(b"\n")?;
    Ok(text)
}

// A count or a length after a word, or the refusal.
fn push_answer(
    text: &mut Vec<u8>,
    word: &[u8],
    answer: Result<usize, Refusal>,
) -> Result<(), AllocError>
    ensures { OnOk result (text.new.items ≡ text.old.items ++ answered word.now answer) }
{
    match answer {
        // A u64 has no `From<usize>`; the cast cuts nothing.
        Ok(n) => push_number(text, word, n as u64),
        // By word and number: what a refusal's `Display` writes is told of a formatter, and not of a Vec.
        Err(refusal) => push_number(text, b"refused ", u64::from(refusal)),
    }
}
