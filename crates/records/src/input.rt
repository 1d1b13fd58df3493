// A record is a length in two bytes, lowest first, and so many bytes. A case is a head of eight bytes, and what
// its head says that there is of its body.
ghost use Rattle.std.specs.Prelude.{◌≡◌, ◌≤◌, ◌<◌, length, take, drop, Some, vec_len, vec_items, IfOk, OnOk, IfSome};
ghost use Rattle.std.specs.Fn.{FnReturnsAt};
ghost use Rattle.std.specs.Option.{option_map};
ghost use Rattle.std.specs.Io.{ReadsAtMost};
ghost use Rattle.std.specs.Io.KnownBytes.{Consumes, IsAtEnd};
ghost use Rattle.records.specs.Cases.{IsNextRecord, IsShaped, IsNextCase};

use numbers::u16_at;
use std::alloc::Global;
use std::io::{Read, Result};

// The next record, as much of it as there is room for; of one that is cut off, what there is. None where not even its
// length is there.
pub fn read_record<R: Read>(alloc: Global, input: &mut R, room: usize) -> Result<Option<Vec<u8>>>
    ensures within { IfOk result (λ found. IfSome found (λ bytes. vec_len bytes ≤ room)) }
    ensures next { IfOk result (λ found. IfSome (R.remaining input.old) (λ all.
        IsNextRecord room all (option_map vec_items found) (R.remaining input.new))) }
{
    let head = next_bytes(alloc, input, 2)?;
    if head.len() < 2 {
        return Ok(None);
    }
    let record = next_bytes(alloc, input, room.min(usize::from(u16_at(&head, 0))))?;
    Ok(Some(record))
}

// How long the parts of a case's body are: how much of the head begins it, how much follows the head, and how much
// of that has to be there.
#[derive(Clone, Copy)]
pub struct Shape {
    pub begin: usize,
    pub rest: usize,
    pub least: usize,
}

const HEAD: usize = 8;

// The body of the next case, of the shape that its head says. None where there is no whole head, where it says none,
// or where too little follows it.
#[tactic(auto, unfolding(crate::specs::Cases::IsNextCase))]
pub(crate) fn read_case<R: Read, S: Fn(&[u8]) -> Option<Shape>>(
    alloc: Global,
    input: &mut R,
    shape: &S,
) -> Result<Option<Vec<u8>>>
    requires { S.IsAlwaysCallable shape.now }
    ensures shaped { IfOk result (λ found. IfSome found (λ body. IsShaped (FnReturnsAt S.Fn shape.now) body.items)) }
    ensures next { IfOk result (λ found. IfSome (R.remaining input.old) (λ all.
        IsNextCase (FnReturnsAt S.Fn shape.now) all (option_map vec_items found) (R.remaining input.new))) }
{
    let mut head = next_bytes(alloc, input, HEAD)?;
    if head.len() < HEAD {
        return Ok(None);
    }
    let Some(shape) = shape(&head) else {
        return Ok(None);
    };
    let rest = next_bytes(alloc, input, shape.rest)?;
    if rest.len() < shape.least {
        return Ok(None);
    }
    head.truncate(shape.begin);
    head.extend_from_slice(&rest)?;
    Ok(Some(head))
}

// The next so many bytes that a reader has, or fewer where it has no more.
fn next_bytes<R: Read>(alloc: Global, input: &mut R, most: usize) -> Result<Vec<u8>>
    ensures within { IfOk result (λ bytes. vec_len bytes ≤ most) }
    ensures first { IfOk result (λ bytes. IfSome (R.remaining input.old) (λ all. bytes.items ≡ take most all)) }
    ensures after { OnOk result (IfSome (R.remaining input.old) (λ all. R.remaining input.new ≡ Some (drop most all))) }
{
    let mut bytes = vec![in alloc; 0u8; most]?;
    let n = read_full(input, &mut bytes)?;
    bytes.truncate(n);
    Ok(bytes)
}

// Reads until `into` is full or the input ends, and says how many bytes came. A loop of its own: std's `take`
// does not say what the reader has left, nor `read_exact` how many bytes came before the end.
fn read_full<R: Read>(input: &mut R, into: &mut [u8]) -> Result<usize>
    ensures bound { ReadsAtMost result into.new }
    ensures size { length into.new ≡ length into.old }
    ensures bytes { IfOk result (λ n. Consumes (R.remaining input.old) (R.remaining input.new) (take n into.new)) }
    ensures end { IfOk result (λ n. n < length into.new → IsAtEnd (R.remaining input.new)) }
{
    let mut done = 0;
    while done < into.len() {
        let n = input.read(&mut into[done..])?;
        if n == 0 {
            break;
        }
        done += n;
    }
    Ok(done)
}
