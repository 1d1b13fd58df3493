// The chain of a book that is accepted.
ghost use Rattle.std.specs.Prelude.{◌≡◌, ◌<◌, ◌^◌, map};
ghost use Rattle.book.specs.BookGrounds.{Accepted};
ghost use Rattle.book.specs.Fields.{members, scale_of, half_life};
ghost use Rattle.book.specs.Held.{feed_of, held_feeds};

use super::chain::HeldChain;
use super::feed::Feed;

// Of an accepted book no count is cut, and each member's feeds are those of its walk.
#[derive(Clone, Copy)]
pub struct AcceptedChain<'a> {
    pub chain: &'a HeldChain<'a>,
    pub ghost accepted: { Accepted chain.now.bytes.now },
}

impl<'a> AcceptedChain<'a> {
    pub fn members(self) -> usize
        ensures value { result ≡ members self.entry.chain.now.bytes.now }
        ensures range { result < 2 ^ 8 }
    {
        self.chain.members
    }

    // What its shares are parts of.
    pub fn scale(self) -> u64
        ensures { result ≡ scale_of self.entry.chain.now.bytes.now }
    {
        self.chain.scale()
    }

    pub fn half_life(self, i: usize) -> u64
        requires { i < members self.chain.now.bytes.now }
        ensures { result ≡ half_life self.entry.chain.now.bytes.now i }
    {
        self.chain.half_lives[i]
    }

    // The feeds into member i.
    pub fn feeds(self, i: usize) -> &'a [Feed]
        requires { i < members self.chain.now.bytes.now }
        ensures { let book = self.entry.chain.now.bytes.now in
            result.now ≡ map (feed_of book) (held_feeds book i) }
    {
        let chain = self.chain;
        &chain.feeds[chain.feeds_start(i)..chain.feeds_end(i)]
    }
}
