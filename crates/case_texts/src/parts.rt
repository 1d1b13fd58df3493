// The parts of a case's body: its numbers, which are little-endian, what follows an offset, and the two parts of one
// that has two.
ghost use Rattle.std.specs.Prelude.{◌≡◌, ◌≤◌, take, drop, IfOk};
ghost use Rattle.case_texts.specs.Texts.{first_part, second_part, numbers_at};

use numbers::u32_at;
use std::alloc::{AllocError, Global};

// So many numbers of four bytes each from an offset on.
pub(crate) fn numbers(
    alloc: Global,
    body: &[u8],
    offset: u32,
    count: u16,
) -> Result<Vec<u32>, AllocError>
    requires within { offset ≤ 8 }
    ensures { IfOk result (λ list. list.items ≡ numbers_at body.now offset count) }
{
    (0..u32::from(count))
        .map(|i| u32_at(body, offset + 4 * i))
        .collect(alloc)
}

// Of two parts the first, whose length stands before it; as much of it as there is. A usize has no `From<u32>`, here
// and below; the casts cut nothing.
pub(crate) fn first_part(body: &[u8]) -> &[u8]
    ensures { result.now ≡ first_part body.now }
{
    start(rest(body, 4), u32_at(body, 0) as usize)
}

// And the second, which is what follows.
pub(crate) fn second_part(body: &[u8]) -> &[u8]
    ensures { result.now ≡ second_part body.now }
{
    rest(body, 4 + u32_at(body, 0) as usize)
}

// So many of the first bytes; all where there are fewer.
fn start(bytes: &[u8], size: usize) -> &[u8]
    ensures { result.now ≡ take size bytes.now }
{
    &bytes[..size.min(bytes.len())]
}

// The bytes from an offset on; none where there are fewer.
pub(crate) fn rest(body: &[u8], offset: usize) -> &[u8]
    ensures { result.now ≡ drop offset body.now }
{
    if offset < body.len() {
        &body[offset..]
    } else {
        b""
    }
}
