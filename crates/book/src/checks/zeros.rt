// Ground 12: the working level divisor, and the bytes that are always zero.
ghost use Rattle.std.specs.Prelude.{◌≡◌, suc, ◌+◌, ◌<◌, ◌^◌};
ghost use Rattle.book.specs.Fields.{members, feed_count, member_zeros, member_zero_count, feed_zeros, feed_zero_count};
ghost use Rattle.numbers.specs.Tests.{some_below};
ghost use Rattle.book.specs.BookGrounds.{not_zero, divisor_or_zeros_wrong};

use super::super::fields::{feed_at, member_at};
use super::super::header::{feed_count, member_count, working_level_divisor};
use super::super::layout::{
    FEED_ZERO_COUNT, FEED_ZEROS, HEADER_ZERO_COUNT, HEADER_ZEROS, MEMBER_ZERO_COUNT, MEMBER_ZEROS,
};
use numbers::{some_below, u8_at};

// One of the `count` bytes from `start` on isn't zero.
fn some_not_zero(book: &[u8], start: u32, count: u16) -> bool
    requires { start + count < 2 ^ 32 }
    ensures { result ≡ some_below count (λ k. not_zero book.now (start + k)) }
{
    some_below(count, |k| u8_at(book, start + u32::from(k)) != 0)
}

// One of the three zero bytes of some member isn't zero.
fn members_not_zero(book: &[u8]) -> bool
    ensures { let bytes = book.now in
        result
        ≡ some_below (members bytes) (λ i. some_below member_zero_count (λ k. not_zero bytes (member_zeros i + k))) }
{
    some_below(member_count(book), |i| {
        some_not_zero(book, member_at(i) + MEMBER_ZEROS, MEMBER_ZERO_COUNT)
    })
}

// One of the two zero bytes of some feed isn't zero.
fn feeds_not_zero(book: &[u8]) -> bool
    ensures { let bytes = book.now in
        result
        ≡ some_below (feed_count bytes)
        (λ j. some_below feed_zero_count (λ k. not_zero bytes (feed_zeros bytes (suc j) + k))) }
{
    some_below(feed_count(book), |j| {
        some_not_zero(book, feed_at(book, j + 1) + FEED_ZEROS, FEED_ZERO_COUNT)
    })
}

#[tactic(auto, unfolding(crate::specs::BookGrounds::divisor_or_zeros_wrong))]
pub(crate) fn divisor_or_zeros_wrong(book: &[u8]) -> bool
    ensures { result ≡ divisor_or_zeros_wrong book.now }
{
    (working_level_divisor(book) == 0)
        | some_not_zero(book, HEADER_ZEROS, HEADER_ZERO_COUNT)
        | members_not_zero(book)
        | feeds_not_zero(book)
}
