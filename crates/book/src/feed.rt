// A feed, by its numbers.
ghost use Rattle.std.specs.Prelude.{◌≡◌};
ghost use Rattle.book.specs.Held.{feed_of};

use super::fields::{from_of, share_of};

// A feed into a member: its share of the factor of the member that it comes from. Both have 32 bits, so that a list of
// feeds has no padding, which would be written and copied too.
#[derive(Clone, Copy)]
pub struct Feed {
    pub share: u32,
    pub from: u32,
}

pub(crate) fn feed_of(book: &[u8], j: u16) -> Feed
    ensures { result ≡ feed_of book.now j }
{
    Feed {
        share: share_of(book, j),
        from: u32::from(from_of(book, j)),
    }
}
