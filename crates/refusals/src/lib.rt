// The grounds for refusal of documents 01 and 02, one list for every call, and the first that is met.
#![tactic(auto)]

mod answer;
mod number;

ghost use Rattle.std.specs.Prelude.{◌≡◌, cond, Ok, Err};

pub use answer::{answer_number, refused_number};

// Why something is refused, in checking order; `refusal_number` of specs/Grounds.antt gives each its number.
#[derive(Clone, Copy, Debug, PartialEq, Eq)]
pub enum Refusal {
    JobTooShort,
    CodeUnknown,
    RateTooHigh,
    TargetTooHigh,
    AttenuationOutOfRange,
    ExposureOutOfRange,
    ReadingUnusable,
    ConcentrationTooHigh,
    BookTooShort,
    CountOutOfRange,
    BookLengthWrong,
    DivisorOrZerosWrong,
    MemberOutOfRange,
    FeedOutOfRange,
    FeedNotOnce,
    FeedsMisplaced,
    FeedNotFromLower,
    SharesOutTooHigh,
    ListTooShort,
    RateCountOutOfRange,
    BufferTooShort,
    PeriodsOutOfRange,
    SecondSetOutOfRange,
    TableNotOfForm,
}

// The refusal where its ground is met; a call goes on with `?`, and so answers the first that is.
pub fn refuse_if(met: bool, refusal: Refusal) -> Result<(), Refusal>
    ensures { result ≡ cond met (Err refusal) (Ok tt) }
{
    if met { Err(refusal) } else { Ok(()) }
}
