// Grounds 16 and 17: which members have feeds, and where those come from.
ghost use Rattle.std.specs.Prelude.{◌≡◌, suc, ◌-◌, leb, eqb};
ghost use Rattle.book.specs.Fields.{members, first_feed, from, feeds_of};
ghost use Rattle.numbers.specs.Tests.{some_below, some_in};
ghost use Rattle.book.specs.BookGrounds.{feeds_misplaced, feed_not_from_lower};

use super::super::feeds::feeds_of;
use super::super::fields::{first_feed, from_of};
use super::super::header::member_count;
use numbers::some_below;

// A member after the parent has no feed.
fn later_without_feed(book: &[u8]) -> bool
    ensures { let bytes = book.now in
        result ≡ some_below (members bytes - 1) (λ i. eqb (first_feed bytes (suc i)) 0) }
{
    let later = member_count(book).saturating_sub(1);
    some_below(later, |i| first_feed(book, i + 1) == 0)
}

#[tactic(auto, unfolding(crate::specs::BookGrounds::feeds_misplaced))]
pub(crate) fn feeds_misplaced(book: &[u8]) -> bool
    ensures { result ≡ feeds_misplaced book.now }
{
    (first_feed(book, 0) != 0) | later_without_feed(book)
}

// One of member i's feeds isn't from a lower member.
fn member_not_from_lower(book: &[u8], i: u16) -> bool
    ensures { let bytes = book.now in
        result ≡ some_in (feeds_of bytes i) (λ j. leb i (from bytes j)) }
{
    feeds_of(book, i).any(|j| i <= u16::from(from_of(book, u16::from(j))))
}

#[tactic(auto, unfolding(crate::specs::BookGrounds::feed_not_from_lower))]
pub(crate) fn feed_not_from_lower(book: &[u8]) -> bool
    ensures { result ≡ feed_not_from_lower book.now }
{
    some_below(member_count(book), |i| member_not_from_lower(book, i))
}
