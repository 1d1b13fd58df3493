// A book's chain, held in arrays.
ghost use Rattle.std.specs.Prelude.{◌≡◌, ◌≤◌, ◌<◌, length};
ghost use Rattle.book.specs.Fields.{scale_of};
ghost use Rattle.book.specs.Limits.{max_feeds};
ghost use Rattle.book.specs.Held.{member_places, feeds_in_order, feeds_end};
ghost use Rattle.book.specs.Holding.{Holding};

use super::feed::Feed;
use super::limits::{MAX_FEEDS, MAX_MEMBERS, WHOLE_SHARE};

// The bytes of a book, and what the balance is worked out from. The feeds stand in the order in
// which the members' walks meet them: member i's are those from the end of member i - 1's on,
// and up to its own end. With no heap, the arrays are fixed, with their count beside;
// half-lives and ends are two, since a pair of them has padding, which would be copied.
#[derive(Clone, Copy)]
pub struct HeldChain<'a> {
    pub bytes: &'a [u8],
    pub members: usize,
    pub half_lives: [u64; MAX_MEMBERS],
    pub ends: [u8; MAX_MEMBERS],
    pub feeds: [Feed; MAX_FEEDS],
    pub ghost held: { Holding bytes.now members half_lives ends feeds },
}

impl HeldChain<'_> {
    // What the book's shares are parts of.
    #[tactic(auto, unfolding(crate::specs::Fields::scale_of))]
    pub fn scale(&self) -> u64
        ensures { result ≡ scale_of self.now.bytes.now }
    {
        WHOLE_SHARE
    }

    // Where member i's feeds begin: at the end of those of the member before it.
    pub(crate) fn feeds_start(&self, i: usize) -> usize
        requires { i < member_places self.now.bytes.now }
        ensures { result ≡ length (feeds_in_order self.now.bytes.now i) }
    {
        if i == 0 { 0 } else { self.feeds_end(i - 1) }
    }

    // The place after its last.
    pub(crate) fn feeds_end(&self, i: usize) -> usize
        requires { i < member_places self.now.bytes.now }
        ensures value { result ≡ feeds_end self.now.bytes.now i }
        ensures within { result ≤ max_feeds }
    {
        usize::from(self.ends[i])
    }
}
