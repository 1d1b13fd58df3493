// The fields of a chain book's members and feeds. An index has 16 bits, so that every offset fits 32.
// Book and index stay two parameters, as in the definitions: a struct of both would be made anew for
// each index, and clauses name both anyway.
ghost use Rattle.std.specs.Prelude.{◌≡◌, ◌<◌, ◌+◌, ◌^◌};
ghost use Rattle.numbers.specs.Bytes.{u8_at};
ghost use Rattle.book.specs.Fields.{member_at, half_life, first_coefficient};
ghost use Rattle.book.specs.Fields.{first_feed, feed_at, share, from, next};

use super::header::member_count;
use super::layout::{FEED_LENGTH, FIRST, FROM, HEADER_LENGTH, MEMBER_LENGTH, NEXT, NUMBERS};
use numbers::{u8_at, u32_at, u64_at};

// Members count from 0 and follow the header.
pub(crate) fn member_at(i: u16) -> u32
    ensures value { result ≡ member_at i }
    ensures upper_bound { result < 2 ^ 22 }
{
    HEADER_LENGTH + MEMBER_LENGTH * u32::from(i)
}

pub(crate) fn half_life(book: &[u8], i: u16) -> u64
    ensures { result ≡ half_life book.now i }
{
    u64_at(book, member_at(i))
}

// Where its five numbers begin.
pub fn first_coefficient(i: u16) -> u32
    ensures value { result ≡ first_coefficient i }
    ensures upper_bound { result < 2 ^ 23 }
{
    member_at(i) + NUMBERS
}

pub(crate) fn first_feed(book: &[u8], i: u16) -> u8
    ensures { result ≡ first_feed book.now i }
{
    u8_at(book, member_at(i) + FIRST)
}

// The feeds follow the members, and count from 1.
pub(crate) fn feed_at(book: &[u8], j: u16) -> u32
    ensures value { result ≡ feed_at book.now j }
    ensures upper_bound { result < 2 ^ 20 }
{
    MEMBER_LENGTH * u32::from(member_count(book)) + FEED_LENGTH * u32::from(j)
}

pub(crate) fn share_of(book: &[u8], j: u16) -> u32
    ensures { result ≡ share book.now j }
{
    u32_at(book, feed_at(book, j))
}

// A byte of feed j, `skip` places after its share's first.
pub(crate) fn feed_byte(book: &[u8], j: u16, skip: u8) -> u8
    ensures { result ≡ u8_at book.now (feed_at book.now j + skip) }
{
    u8_at(book, feed_at(book, j) + u32::from(skip))
}

pub(crate) fn from_of(book: &[u8], j: u16) -> u8
    ensures { result ≡ from book.now j }
{
    feed_byte(book, j, FROM)
}

pub(crate) fn next_of(book: &[u8], j: u16) -> u8
    ensures { result ≡ next book.now j }
{
    feed_byte(book, j, NEXT)
}
