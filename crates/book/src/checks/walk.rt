// Ground 15: walking the members in order, every feed comes up once. How often each does is kept in
// one array, a byte for a feed: 0 is never, 1 is once, and from 2 on it does not matter how often.
ghost use Rattle.std.specs.Prelude.{◌≡◌, length};
ghost use Rattle.book.specs.Fields.{members, feeds_of};
ghost use Rattle.book.specs.BookGrounds.{walk, feed_not_once};
ghost use Rattle.book.specs.Private.Counted.{Counted};

use super::super::feeds::feeds_of;
use super::super::header::{feed_count, member_count};
use numbers::some_below;

// Counts each feed of member i once more; a third time is no different from a second. A feed is a byte, so every one
// has its place.
fn count_along(book: &[u8], i: u16, counts: &mut [u8])
    requires { length counts.old ≡ 256 }
    ensures { Counted counts.old (feeds_of book.now i) counts.new }
{
    for feed in feeds_of(book, i) {
        let at = usize::from(feed);
        counts[at] = counts[at].saturating_add(1).min(2);
    }
}

// Counts each feed of every member once more, the members in order.
fn count_walk(book: &[u8], counts: &mut [u8; 256])
    ensures { let bytes = book.now in
        Counted counts.old (walk bytes (members bytes)) counts.new }
{
    let count = member_count(book);
    // A member's number is what its feeds are read by: the members are bytes, and no list of them is held.
    for i in 0..count {
        count_along(book, i, counts);
    }
}

#[tactic(auto, using(crate::proofs::Counted::once), unfolding(crate::specs::BookGrounds::feed_not_once))]
pub(crate) fn feed_not_once(book: &[u8]) -> bool
    ensures { result ≡ feed_not_once book.now }
{
    let mut counts = [0u8; 256];
    count_walk(book, &mut counts);
    some_below(feed_count(book), |j| counts[usize::from(j) + 1] != 1)
}
