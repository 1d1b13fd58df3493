// Cases that are answered one after the other, each as soon as it is there.
ghost use Rattle.std.specs.Prelude.{◌≡◌, List, ℕ, Ok, OnOk, vec_items};
ghost use Rattle.std.specs.Fn.{CalledAtMut, FnReturns, FnReturnsAt};
ghost use Rattle.std.specs.Io.KnownBytes.{Appends};
ghost use Rattle.records.specs.Answered.{Answered, AnsweredFrom};
ghost use Rattle.records.specs.Cases.{IsNextRecord, IsNextCase};

use super::input::{Shape, read_case, read_record};
use anyhow::Result;
use std::alloc::{AllocError, Global};
use std::io::{Read, Write};

// Writes the text of each case that `next` finds in the input, until it finds none or there were so many.
pub fn answer_all<R: Read, W: Write, C, N, F>(
    input: &mut R,
    output: &mut W,
    most: u64,
    mut next: N,
    answer: F,
) -> Result<()>
where
    N: FnMut(&mut R) -> Result<Option<C>>,
    F: Fn(C) -> Result<Vec<u8>>,
    requires next { N.IsAlwaysCallable next }
    requires answer { F.IsAlwaysCallable answer }
    ensures { OnOk result ((text : List ℕ)
        × Answered (λ f s found g t. CalledAtMut N.FnMut f s (Ok found) g t)
        (λ case text. (v : _) × FnReturns F.Fn answer (case, tt) (Ok v) × (vec_items v ≡ text)) most next input.old text
        × Appends (W.contents output.old) (W.contents output.new) text) }
{
    for _turn in 0..most {
        let Some(case) = next(input)? else {
            return Ok(());
        };
        let text = answer(case)?;
        output.write_all(&text)?;
    }
    Ok(())
}

// More records or cases than any recording has.
const MOST: u64 = 100_000;

// Room for any record.
const ROOM: usize = 65_536;

// Writes the text of each record of the input.
pub fn answer_records<R: Read, W: Write, F: Fn(&[u8]) -> Result<Vec<u8>, AllocError>>(
    alloc: Global,
    input: &mut R,
    output: &mut W,
    answer: F,
) -> Result<()>
    requires { F.IsAlwaysCallable answer }
    ensures { OnOk result ((text : List ℕ)
        × AnsweredFrom (IsNextRecord ROOM)
        (λ body text. (v : _) × FnReturnsAt F.Fn answer body (Ok v) × (vec_items v ≡ text))
        MOST (R.remaining input.old) text
        × Appends (W.contents output.old) (W.contents output.new) text) }
{
    answer_all(
        input,
        output,
        MOST,
        |input| Ok(read_record(alloc, input, ROOM)?),
        |body: Vec<u8>| Ok(answer(&body)?),
    )
}

// Writes the text of each case of the input, of the shape that its head says.
pub fn answer_cases<R: Read, W: Write, S, F>(
    alloc: Global,
    input: &mut R,
    output: &mut W,
    shape: S,
    answer: F,
) -> Result<()>
where
    S: Fn(&[u8]) -> Option<Shape>,
    F: Fn(&[u8]) -> Result<Vec<u8>, AllocError>,
    requires shape { S.IsAlwaysCallable shape }
    requires answer { F.IsAlwaysCallable answer }
    ensures { OnOk result ((text : List ℕ)
        × AnsweredFrom (IsNextCase (FnReturnsAt S.Fn shape))
        (λ body text. (v : _) × FnReturnsAt F.Fn answer body (Ok v) × (vec_items v ≡ text))
        MOST (R.remaining input.old) text
        × Appends (W.contents output.old) (W.contents output.new) text) }
{
    answer_all(
        input,
        output,
        MOST,
        |input| Ok(read_case(alloc, input, &shape)?),
        |body: Vec<u8>| Ok(answer(&body)?),
    )
}

#[cfg(test)]
mod tests {
    use super::*;

    #[test]
    fn answers_each_case_in_turn(rt: HostRuntime) {
        let alloc = rt.alloc();
        let mut records: &[u8] = &[2, 0, b'a', b'b', 0, 0, 1, 0, b'c', 9];
        let mut output = Vec::new(alloc);
        let answered = answer_records(alloc, &mut records, &mut output, |record| {
            Vec::from_slice(alloc, record)
        });
        assert!(rt; answered.is_ok());
        assert_eq!(rt; output.as_slice(), b"abc".as_slice());

        let mut cases: &[u8] = b"12345678ab12345678c";
        let mut output = Vec::new(alloc);
        let shape = |_head: &[u8]| {
            Some(Shape {
                begin: 1,
                rest: 2,
                least: 2,
            })
        };
        let answered = answer_cases(alloc, &mut cases, &mut output, shape, |body| {
            Vec::from_slice(alloc, body)
        });
        assert!(rt; answered.is_ok());
        assert_eq!(rt; output.as_slice(), b"1ab".as_slice());
    }
}
