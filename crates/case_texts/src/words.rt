// A word, a number, the places of a list and answers, at the end of a text.
ghost use Rattle.std.specs.Prelude.{◌≡◌, ◌++◌, OnOk};
ghost use Rattle.text.specs.Words.{ascii, decimal};
ghost use Rattle.case_texts.specs.Texts.{places, signed, spaced};

use std::alloc::AllocError;
use text::MOST_DIGITS;

// A word, and then a number in decimal. Beside `text::Writer`, which has no room to grow: a Vec can run out of memory.
#[tactic(auto, using(text::proofs::Digits::digits_decimal))]
pub(crate) fn push_number(text: &mut Vec<u8>, word: &[u8], n: u64) -> Result<(), AllocError>
    ensures { OnOk result (text.new.items ≡ text.old.items ++ word.now ++ decimal n) }
{
    let mut digits = [0u8; MOST_DIGITS];
    let k = io::decimal(n, &mut digits);
    text.extend_from_slice(word)?;
    text.extend_from_slice(&digits[..k])
}

// Each number of a list after a space.
pub(crate) fn push_places(text: &mut Vec<u8>, list: &[u64]) -> Result<(), AllocError>
    ensures { OnOk result (text.new.items ≡ text.old.items ++ places list.now) }
{
    for n in list {
        push_number(text, b" ", *n)?;
    }
    Ok(())
}

// An answer after a space.
fn push_signed(text: &mut Vec<u8>, answer: i64) -> Result<(), AllocError>
    ensures { OnOk result (text.new.items ≡ text.old.items ++ (ascii " " ++ signed answer)) }
{
    if answer < 0 {
        push_number(text, b" -", answer.unsigned_abs())
    } else {
        push_number(text, b" ", answer.unsigned_abs())
    }
}

// Each answer of a list after a space.
pub(crate) fn push_answers(text: &mut Vec<u8>, list: &[i64]) -> Result<(), AllocError>
    ensures { OnOk result (text.new.items ≡ text.old.items ++ spaced signed list.now) }
{
    for answer in list {
        push_signed(text, *answer)?;
    }
    Ok(())
}
