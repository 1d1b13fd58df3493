// Ground 14: the numbers of each feed, and each member's first feed.
ghost use Rattle.std.specs.Prelude.{◌≡◌, suc, ltb};
ghost use Rattle.book.specs.Fields.{members, feed_count, first_feed};
ghost use Rattle.numbers.specs.Tests.{some_below};
ghost use Rattle.book.specs.BookGrounds.{feed_wrong, feed_out_of_range};

use super::super::fields::{first_feed, from_of, next_of, share_of};
use super::super::header::{feed_count, member_count};
use super::super::limits::WHOLE_SHARE;
use numbers::some_below;

// A number of feed j is out of range.
#[tactic(auto, unfolding(crate::specs::Fields::scale_of))]
fn feed_wrong(book: &[u8], j: u16) -> bool
    ensures { result ≡ feed_wrong book.now j }
{
    let share_wrong = !(1..=WHOLE_SHARE).contains(&u64::from(share_of(book, j)));
    let from_wrong = member_count(book) <= u16::from(from_of(book, j));
    share_wrong | from_wrong | (feed_count(book) < u16::from(next_of(book, j)))
}

fn some_feed_wrong(book: &[u8]) -> bool
    ensures { let bytes = book.now in
        result ≡ some_below (feed_count bytes) (λ j. feed_wrong bytes (suc j)) }
{
    some_below(feed_count(book), |j| feed_wrong(book, j + 1))
}

// Some member's first feed isn't one of the book's.
fn some_first_wrong(book: &[u8]) -> bool
    ensures { let bytes = book.now in
        result ≡ some_below (members bytes) (λ i. ltb (feed_count bytes) (first_feed bytes i)) }
{
    let feeds = feed_count(book);
    some_below(
        member_count(book),
        |i| feeds < u16::from(first_feed(book, i)),
    )
}

#[tactic(auto, unfolding(crate::specs::BookGrounds::feed_out_of_range))]
pub(crate) fn feed_out_of_range(book: &[u8]) -> bool
    ensures { result ≡ feed_out_of_range book.now }
{
    some_feed_wrong(book) | some_first_wrong(book)
}
