// The feeds along next, one after the other.
ghost use Rattle.std.specs.Prelude.{◌≡◌};
ghost use Rattle.std.specs.Iterator.{YieldsFirst, item_count};
ghost use Rattle.book.specs.Fields.{first_feed, next, along, feeds_of};
ghost use Rattle.book.specs.Private.Feeds.{feeds_left};

use super::fields::{first_feed, next_of};
use super::header::feed_count;

// The feed that comes next, 0 where none does, and how many are listed at most: a chain that is longer is cut.
#[derive(Drop)]
pub(crate) struct Feeds<'a> {
    book: &'a [u8],
    next: u8,
    left: usize,
}

impl<'a> Iterator for Feeds<'a> {
    type Item = u8;

    ghost next_gives = { YieldsFirst feeds_left };

    ghost remaining = { item_count feeds_left };

    #[tactic(auto, using(crate::proofs::Along::steps))]
    fn next(&mut self) -> Option<u8> {
        let feed = self.next;
        if feed == 0 || self.left == 0 {
            return None;
        }
        self.next = next_of(self.book, u16::from(feed));
        self.left -= 1;
        Some(feed)
    }
}

// Member i's feeds, `most` of them at most.
pub(crate) fn first_feeds(book: &[u8], i: u16, most: usize) -> Feeds<'_>
    ensures { feeds_left result ≡ along (next book.now) most (first_feed book.now i) }
{
    Feeds {
        book,
        next: first_feed(book, i),
        left: most,
    }
}

// Member i's feeds: of a chain that does not end, one more than the book has.
pub(crate) fn feeds_of(book: &[u8], i: u16) -> Feeds<'_>
    ensures { feeds_left result ≡ feeds_of book.now i }
{
    first_feeds(book, i, usize::from(feed_count(book)) + 1)
}
