// A refusal as a number, and as what a program prints of it.
ghost use Rattle.std.specs.Prelude.{◌≡◌, Some};
ghost use Rattle.refusals.specs.Grounds.{refusal_number};
ghost use Rattle.refusals.specs.Printed.{refused_text};

use super::Refusal;
use std::error::Error;
use std::fmt;

// 1 to 19 are document 01's, later ones document 02's.
impl From<Refusal> for u64 {
    ghost from_gives = { λ refusal number. number ≡ refusal_number refusal };

    fn from(refusal: Refusal) -> u64 {
        match refusal {
            Refusal::JobTooShort => 1,
            Refusal::CodeUnknown => 2,
            Refusal::RateTooHigh => 3,
            Refusal::TargetTooHigh => 4,
            Refusal::AttenuationOutOfRange => 5,
            Refusal::ExposureOutOfRange => 6,
            Refusal::ReadingUnusable => 7,
            Refusal::ConcentrationTooHigh => 8,
            Refusal::BookTooShort => 9,
            Refusal::CountOutOfRange => 10,
            Refusal::BookLengthWrong => 11,
            Refusal::DivisorOrZerosWrong => 12,
            Refusal::MemberOutOfRange => 13,
            Refusal::FeedOutOfRange => 14,
            Refusal::FeedNotOnce => 15,
            Refusal::FeedsMisplaced => 16,
            Refusal::FeedNotFromLower => 17,
            Refusal::SharesOutTooHigh => 18,
            Refusal::ListTooShort => 19,
            Refusal::RateCountOutOfRange => 20,
            Refusal::BufferTooShort => 21,
            Refusal::PeriodsOutOfRange => 22,
            Refusal::SecondSetOutOfRange => 23,
            Refusal::TableNotOfForm => 24,
        }
    }
}

impl fmt::Display for Refusal {
    ghost output = { λ refusal. Some (refused_text refusal) };

    fn fmt<W: fmt::Write>(&self, f: &mut fmt::Formatter<W>) -> fmt::Result {
        write!(f, "refused {}", u64::from(*self))
    }
}

impl Error for Refusal {}
