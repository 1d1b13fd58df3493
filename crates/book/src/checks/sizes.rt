// Grounds 9 to 11: the book's length and its two counts.
ghost use Rattle.std.specs.Prelude.{◌≡◌};
ghost use Rattle.book.specs.BookGrounds.{book_too_short, count_out_of_range, book_length_wrong};

use super::super::header::{feed_count, member_count};
use super::super::layout::{FEED_LENGTH, HEADER_LENGTH, MEMBER_LENGTH};
use super::super::limits::{MAX_FEEDS, MAX_MEMBERS};

#[tactic(auto, unfolding(crate::specs::BookGrounds::book_too_short))]
pub(crate) fn book_too_short(book: &[u8]) -> bool
    ensures { result ≡ book_too_short book.now }
{
    // A usize has no `From<u32>`, hence `as`.
    book.len() < HEADER_LENGTH as usize
}

#[tactic(auto, unfolding(crate::specs::BookGrounds::count_out_of_range))]
pub(crate) fn count_out_of_range(book: &[u8]) -> bool
    ensures { result ≡ count_out_of_range book.now }
{
    !(1..=MAX_MEMBERS).contains(&usize::from(member_count(book)))
        | (MAX_FEEDS < usize::from(feed_count(book)))
}

#[tactic(auto, unfolding(crate::specs::BookGrounds::book_length_wrong))]
pub(crate) fn book_length_wrong(book: &[u8]) -> bool
    ensures { result ≡ book_length_wrong book.now }
{
    let members = MEMBER_LENGTH * u32::from(member_count(book));
    let feeds = FEED_LENGTH * u32::from(feed_count(book));
    // At most 10,208; a usize has no `From<u32>`.
    book.len() != (HEADER_LENGTH + members + feeds) as usize
}
