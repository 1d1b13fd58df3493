// The checks of a chain book, grounds 9 to 18.
mod feeds;
mod members;
mod order;
mod shares;
mod sizes;
mod walk;
mod zeros;

ghost use Rattle.std.specs.Prelude.{◌≡◌, Ok};
ghost use Rattle.refusals.specs.Grounds.{first_met};
ghost use Rattle.book.specs.BookGrounds.{member_grounds, feed_grounds, book_grounds};

use feeds::feed_out_of_range;
use members::member_out_of_range;
use order::{feed_not_from_lower, feeds_misplaced};
use refusals::{Refusal, refuse_if};
use shares::shares_out_too_high;
use sizes::{book_length_wrong, book_too_short, count_out_of_range};
use walk::feed_not_once;
use zeros::divisor_or_zeros_wrong;

// The first ground for refusing the book, if there is one.
#[tactic(auto, using(crate::proofs::MemberGrounds::in_two_parts))]
pub fn check_book(book: &[u8]) -> Result<(), Refusal>
    ensures { result ≡ first_met (book_grounds book.now) }
{
    check_members(book)?;
    check_feeds(book)
}

// Grounds 9 to 13: the book's form, and its members.
fn check_members(book: &[u8]) -> Result<(), Refusal>
    ensures { result ≡ first_met (member_grounds book.now) }
{
    refuse_if(book_too_short(book), Refusal::BookTooShort)?;
    refuse_if(count_out_of_range(book), Refusal::CountOutOfRange)?;
    refuse_if(book_length_wrong(book), Refusal::BookLengthWrong)?;
    refuse_if(divisor_or_zeros_wrong(book), Refusal::DivisorOrZerosWrong)?;
    refuse_if(member_out_of_range(book), Refusal::MemberOutOfRange)
}

// Grounds 14 to 18: the feeds of a book whose members pass.
fn check_feeds(book: &[u8]) -> Result<(), Refusal>
    requires { first_met (member_grounds book.now) ≡ Ok tt }
    ensures { result ≡ first_met (feed_grounds book.now) }
{
    refuse_if(feed_out_of_range(book), Refusal::FeedOutOfRange)?;
    refuse_if(feed_not_once(book), Refusal::FeedNotOnce)?;
    refuse_if(feeds_misplaced(book), Refusal::FeedsMisplaced)?;
    refuse_if(feed_not_from_lower(book), Refusal::FeedNotFromLower)?;
    refuse_if(shares_out_too_high(book), Refusal::SharesOutTooHigh)
}
