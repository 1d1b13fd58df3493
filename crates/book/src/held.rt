// A book's chain in arrays, read once.
ghost use Rattle.std.specs.Prelude.{◌≡◌, ◌≤◌, ◌<◌, ◌-◌, replicate, length};
ghost use Rattle.book.specs.Limits.{max_members, max_feeds};
ghost use Rattle.book.specs.Fields.{half_life, first_feed, next, along};
ghost use Rattle.book.specs.Held.{member_places, filled, feeds_end, feeds_in_order};
ghost use Rattle.book.specs.Private.Placed.{Placed, Extended};

use super::chain::HeldChain;
use super::feed::{Feed, feed_of};
use super::feeds::first_feeds;
use super::fields::half_life;
use super::filling::fill_first;
use super::header::member_count;
use super::limits::{MAX_FEEDS, MAX_MEMBERS};

// How many members are held.
pub(crate) fn member_places(book: &[u8]) -> usize
    ensures { result ≡ member_places book.now }
{
    usize::from(member_count(book)).min(MAX_MEMBERS)
}

// Member i's feeds, to the places from `start` on, and the place after the last; cut where the places end.
fn feeds_along(book: &[u8], i: u16, start: usize, feeds: &mut [Feed; MAX_FEEDS]) -> usize
    requires { start ≤ max_feeds }
    ensures { let bytes = book.now in
        let added = along (next bytes) (max_feeds - start) (first_feed bytes i) in
        Extended bytes added start result feeds.old feeds.new }
{
    // With no heap, the feeds lie in a fixed array with their end beside; it is counted by hand, since nothing is known
    // of what `iter_mut` under a `zip` leaves.
    let mut at = start;
    for feed in first_feeds(book, i, MAX_FEEDS - start) {
        feeds[at] = feed_of(book, u16::from(feed));
        at += 1;
    }
    at
}

// The feeds of every member, the members in order, and of each the place after its last.
fn feeds_in(
    book: &[u8],
    members: usize,
    ends: &mut [u8; MAX_MEMBERS],
    feeds: &mut [Feed; MAX_FEEDS],
)
    requires members_le_max_members { members ≤ max_members }
    requires ends_len { length ends.old ≡ max_members }
    requires feeds_len { length feeds.old ≡ max_feeds }
    ensures ended { ends.new ≡ filled members (feeds_end book.now) ends.old }
    ensures placed { Placed book.now (feeds_in_order book.now members) feeds.old feeds.new }
{
    let mut at = 0;
    // A member's number is what its feeds are read by: the members are bytes, and no list of them is held. There are at
    // most 16 of them and 64 feeds, so that neither cast cuts.
    for i in 0..members {
        at = feeds_along(book, i as u16, at, feeds);
        ends[i] = at as u8;
    }
}

// The chain of any bytes: the count of members and their feeds are cut at the arrays' sizes, and past the end a field
// reads as 0.
pub fn read_chain(book: &[u8]) -> HeldChain<'_>
    ensures { result.bytes.now ≡ book.now }
{
    let members = member_places(book);
    let mut half_lives = [0u64; MAX_MEMBERS];
    let mut ends = [0u8; MAX_MEMBERS];
    let mut feeds = [Feed { share: 0, from: 0 }; MAX_FEEDS];
    fill_first(&mut half_lives, members, |i| half_life(book, i));
    feeds_in(book, members, &mut ends, &mut feeds);
    HeldChain {
        bytes: book,
        members,
        half_lives,
        ends,
        feeds,
    }
}
