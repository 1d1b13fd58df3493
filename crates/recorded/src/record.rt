// A recorded case: its kind in one byte, its length in four, lowest first, and so many bytes.
use super::kind::Kind;
use anyhow::Result;
use numbers::u32_at;
use std::alloc::Global;
use std::io::{Error, Read};

const HEAD: usize = 5;

#[derive(Drop)]
pub(crate) struct Record {
    pub kind: Kind,
    pub body: Vec<u8>,
}

// The next case, or none at the end of the input. One that is cut short is an error, and so is one of no kind, which is
// told only where it is whole.
pub(crate) fn next_record<R: Read>(alloc: Global, input: &mut R) -> Result<Option<Record>> {
    let mut head = [0u8; HEAD];
    if input.read(&mut head[..1])? == 0 {
        return Ok(None);
    }
    input.read_exact(&mut head[1..])?;
    // A usize has no `From<u32>`; the cast cuts nothing.
    let length = u32_at(&head, 1) as usize;
    let mut body = vec![in alloc; 0u8; length].map_err(Error::from)?;
    input.read_exact(&mut body)?;
    let kind = Kind::try_from(head[0])?;
    Ok(Some(Record { kind, body }))
}
