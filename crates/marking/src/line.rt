// What a line of a table says: the numbers at the places of R-3's form.
ghost use Rattle.std.specs.Prelude.{◌≡◌, ◌<◌, ◌≤◌};
ghost use Rattle.book.specs.Limits.{max_members};
ghost use Rattle.marking.specs.Lines.{rate_places, rate_in, share_in};
ghost use Rattle.marking.specs.Private.Readable.{Readable};

use entry::{ENTRY_LENGTH, Share};
use printed::{number_at, share_at};

// A space and an entry.
pub(crate) const SPACED: usize = 1 + ENTRY_LENGTH;

// How many places a line of so many members has for the digits of its rate.
pub(crate) fn rate_places(line: &[u8], members: usize) -> usize
    requires { members ≤ max_members }
    ensures { result ≡ rate_places members line.now }
{
    line.len().saturating_sub(members * SPACED + 1)
}

// Its rate. No cast here cuts anything: a line that is read has at most six such places, and 16 members.
pub(crate) fn rate_in(line: &[u8], members: usize) -> u64
    requires { Readable members line.now }
    ensures { result ≡ rate_in members line.now }
{
    number_at(line, 0, rate_places(line, members) as u32)
}

// Member i's number.
pub(crate) fn share_in(line: &[u8], members: usize, i: usize) -> Share
    requires readable { Readable members line.now }
    requires member { i < members }
    ensures { result ≡ share_in members line.now i }
{
    share_at(line, (rate_places(line, members) + i * SPACED + 1) as u32)
}
