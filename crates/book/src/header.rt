// A book's header: W, and its counts, in the type of the fields' indices; it is wider than a count, so that the range
// is said.
ghost use Rattle.std.specs.Prelude.{◌≡◌, ◌<◌, ◌^◌};
ghost use Rattle.book.specs.Fields.{members, feed_count, working_level_divisor};

use super::layout::{DIVISOR, FEED_COUNT, MEMBER_COUNT};
use numbers::{u8_at, u16_at};

pub fn member_count(book: &[u8]) -> u16
    ensures value { result ≡ members book.now }
    ensures range { result < 2 ^ 8 }
{
    u16::from(u8_at(book, MEMBER_COUNT))
}

pub fn feed_count(book: &[u8]) -> u16
    ensures value { result ≡ feed_count book.now }
    ensures range { result < 2 ^ 8 }
{
    u16::from(u8_at(book, FEED_COUNT))
}

pub fn working_level_divisor(book: &[u8]) -> u16
    ensures { result ≡ working_level_divisor book.now }
{
    u16_at(book, DIVISOR)
}
