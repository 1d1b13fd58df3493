// Where the fields of a chain book stand, as specs/Fields.antt has them.
ghost use Rattle.std.specs.Prelude.{◌≡◌};
ghost use Rattle.book.specs.Fields.{longest_book};

use super::limits::{MAX_FEEDS, MAX_MEMBERS};

pub const HEADER_LENGTH: u32 = 8;

pub const MEMBER_LENGTH: u32 = 32;

pub const FEED_LENGTH: u32 = 8;

// The most bytes that an accepted book has. A usize has no `From<u32>`, hence `as`.
pub const LONGEST_BOOK: usize = HEADER_LENGTH as usize
    + MEMBER_LENGTH as usize * MAX_MEMBERS
    + FEED_LENGTH as usize * MAX_FEEDS;

// The constant is the definition's.
fn longest_book() -> usize
    ensures { result ≡ longest_book }
{
    LONGEST_BOOK
}

// How many numbers a member has: four coefficients and an alpha energy weight.
pub const COEFFICIENTS: usize = 5;

// A member's numbers: four coefficients and an alpha energy weight.
pub type Coefficients = [u32; COEFFICIENTS];

// In the header.
pub(crate) const MEMBER_COUNT: u32 = 0;

pub(crate) const FEED_COUNT: u32 = 1;

pub(crate) const DIVISOR: u32 = 2;

pub(crate) const HEADER_ZEROS: u32 = 4;

pub(crate) const HEADER_ZERO_COUNT: u16 = 4;

// In a member, whose half-life comes first.
pub(crate) const NUMBERS: u32 = 8;

pub(crate) const FIRST: u32 = 28;

pub(crate) const MEMBER_ZEROS: u32 = 29;

pub(crate) const MEMBER_ZERO_COUNT: u16 = 3;

// In a feed, whose share comes first.
pub(crate) const FROM: u8 = 4;

pub(crate) const NEXT: u8 = 5;

pub(crate) const FEED_ZEROS: u32 = 6;

pub(crate) const FEED_ZERO_COUNT: u16 = 2;
