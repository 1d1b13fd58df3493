// Little-endian numbers in a list of bytes; past the end a byte reads as 0.
ghost use Rattle.std.specs.Prelude.{◌≡◌, ◌<◌, ◌≤◌, ◌+◌, ◌^◌, length, get_or};
ghost use Rattle.numbers.specs.Bytes.{u8_at, u16_at, u32_at, u64_at};

use std::array::from_fn;

fn byte_at(bytes: &[u8], at: usize) -> u8
    ensures { result ≡ u8_at bytes.now at }
{
    bytes.get(at).copied().unwrap_or(0)
}

// The N bytes from `at` on. Where all are there, a machine reads them as one word.
fn bytes_from<const N: usize>(bytes: &[u8], at: u32) -> [u8; N]
    requires { N < 2 ^ 32 }
    ensures size { length result ≡ N }
    ensures each { (k : _) → k < N → get_or result k 0 ≡ u8_at bytes.now (at + k) }
{
    // A usize has no `From<u32>`; the cast cuts nothing here and in `u8_at`.
    let at = at as usize;
    if at + N <= bytes.len() {
        return from_fn(|k| bytes[at + k]);
    }
    from_fn(|k| byte_at(bytes, at + k))
}

pub fn u8_at(bytes: &[u8], at: u32) -> u8
    ensures { result ≡ u8_at bytes.now at }
{
    byte_at(bytes, at as usize)
}

pub fn u16_at(bytes: &[u8], at: u32) -> u16
    ensures { result ≡ u16_at bytes.now at }
{
    u16::from_le_bytes(bytes_from(bytes, at))
}

pub fn u32_at(bytes: &[u8], at: u32) -> u32
    ensures { result ≡ u32_at bytes.now at }
{
    u32::from_le_bytes(bytes_from(bytes, at))
}

pub fn u64_at(bytes: &[u8], at: u32) -> u64
    ensures { result ≡ u64_at bytes.now at }
{
    u64::from_le_bytes(bytes_from(bytes, at))
}
