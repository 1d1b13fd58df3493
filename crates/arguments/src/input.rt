// A program's input: a file's bytes, or those of standard input, up to a limit.
ghost use Rattle.std.specs.Prelude.{◌≡◌, ◌≤◌, IfOk, IfSome, take, vec_len};

use anyhow::{Context, Result, bail};
use std::alloc::Global;
use std::fs::File;
use std::io;
use std::io::Read;

// The first `most` bytes that a reader has, or all where it has no more.
// The bound is said of the Vec, which holds none.
pub fn first_bytes<R: Read + Drop>(alloc: Global, reader: R, most: usize) -> io::Result<Vec<u8>>
    ensures within { IfOk result (λ bytes. vec_len bytes ≤ most) }
    ensures first { IfOk result (λ bytes. IfSome (R.remaining reader) (λ all. bytes.items ≡ take most all)) }
{
    let mut bytes = Vec::new(alloc);
    // A u64 has no `From<usize>`; the cast cuts nothing.
    reader.take(most as u64).read_to_end(&mut bytes)?;
    bytes.truncate(most);
    Ok(bytes)
}

// What is read of a file; where it cannot be, its whole name stands before the line that says why.
fn named<T>(rt: &HostRuntime, path: &str, read: io::Result<T>) -> io::Result<T>
    ensures { result ≡ read }
{
    if read.is_err() {
        let _ = eprint!(rt; "{path}: ");
    }
    read
}

// The first `most` bytes of a file.
pub fn read_file(rt: &HostRuntime, path: &str, most: usize) -> Result<Vec<u8>>
    ensures { IfOk result (λ bytes. vec_len bytes ≤ most) }
{
    let file = named(rt, path, File::open(rt, path))?;
    let bytes = named(rt, path, first_bytes(rt.alloc(), file, most))?;
    Ok(bytes)
}

// The first `most` bytes of the one file that the arguments name, or of standard input where they name none.
pub fn read_input(rt: &HostRuntime, usage: &str, most: usize) -> Result<Vec<u8>>
    ensures { IfOk result (λ bytes. vec_len bytes ≤ most) }
{
    let mut words = std::env::args(rt)?;
    let _program = words.next();
    let Some(path) = words.next() else {
        let bytes = first_bytes(rt.alloc(), rt.stdin(), most).context("standard input")?;
        return Ok(bytes);
    };
    if words.next().is_some() {
        bail!("usage: {usage}");
    }
    read_file(rt, path.as_str(), most)
}
