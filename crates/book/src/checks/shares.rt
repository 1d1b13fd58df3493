// Ground 18: the shares out of each member, summed in one pass over the feeds.
ghost use Rattle.std.specs.Prelude.{◌≡◌, ◌+◌, ◌≤◌, get_or, set, replicate};
ghost use Rattle.book.specs.Limits.{max_members};
ghost use Rattle.book.specs.Fields.{members};
ghost use Rattle.book.specs.BookGrounds.{shares_out_too_high};
ghost use Rattle.book.specs.Private.SharesSummed.{SumsFit, SharesSummed};

use super::super::fields::{from_of, share_of};
use super::super::header::{feed_count, member_count};
use super::super::limits::{MAX_MEMBERS, WHOLE_SHARE};
use numbers::some_below;

// Adds a share to the sum of the member that it leaves; one past the places has none.
fn add_share(sums: &mut [u64; MAX_MEMBERS], from: u8, share: u32)
    requires { SumsFit sums.old }
    ensures { sums.new ≡ set sums.old from (get_or sums.old from 0 + share) }
{
    let at = usize::from(from);
    if at < MAX_MEMBERS {
        sums[at] += u64::from(share);
    }
}

// The shares out of each member, from sums of 0.
fn sum_shares(book: &[u8], sums: &mut [u64; MAX_MEMBERS])
    requires { sums.old ≡ replicate max_members 0 }
    ensures { SharesSummed book.now sums.new }
{
    let count = feed_count(book);
    // A feed's number is what its fields are read by: the feeds are bytes, and no list of them is held.
    for j in 0..count {
        add_share(sums, from_of(book, j + 1), share_of(book, j + 1));
    }
}

#[tactic(auto, unfolding(crate::specs::BookGrounds::shares_out_too_high, crate::specs::Fields::scale_of))]
pub(crate) fn shares_out_too_high(book: &[u8]) -> bool
    requires { members book.now ≤ max_members }
    ensures { result ≡ shares_out_too_high book.now }
{
    let mut sums = [0u64; MAX_MEMBERS];
    sum_shares(book, &mut sums);
    some_below(member_count(book), |i| WHOLE_SHARE < sums[usize::from(i)])
}
