// What many rates are answered, and what both lists that are lent to the call hold afterwards.
ghost use Rattle.std.specs.Prelude.{◌≡◌, IfOk};
ghost use Rattle.case_texts.specs.Texts.{rates_case};

use super::calls::PLACE;
use super::parts::{numbers, rest};
use super::words::{push_answers, push_number, push_places};
use numbers::u16_at;
use portfolios::factors_at_rates;
use std::alloc::{AllocError, Global};

const ANSWER: i64 = 7;

// How many rates were run, and then every answer and every place of the rows.
pub fn rates_case(alloc: Global, body: &[u8]) -> Result<Vec<u8>, AllocError>
    ensures { IfOk result (λ text. text.items ≡ rates_case body.now) }
{
    let width = usize::from(u16_at(body, 0));
    let mut answers = vec![in alloc; ANSWER; usize::from(u16_at(body, 2))]?;
    let mut rows = vec![in alloc; PLACE; usize::from(u16_at(body, 4))]?;
    let count = u16_at(body, 6);
    let rates = numbers(alloc, body, 8, count)?;
    let book = rest(body, 8 + 4 * usize::from(count));
    let run = factors_at_rates(&rates, book, width, &mut answers, &mut rows);
    let mut text = Vec::new(alloc);
    // A u64 has no `From<usize>`; the cast cuts nothing.
    push_number(&mut text, b"run ", run as u64)?;
    text.extend_from_slice(b" :")?;
    push_answers(&mut text, &answers)?;
    text.extend_from_slice(b" :")?;
    push_places(&mut text, &rows)?;
    text.extend_from_slice(b"\n")?;
    Ok(text)
}
