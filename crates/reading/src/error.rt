// Why a reading has no concentration, and the ground that refuses it.
ghost use Rattle.std.specs.Prelude.{◌≡◌};
ghost use Rattle.reading.specs.Reading.{refusal_of};

use refusals::Refusal;

#[derive(Clone, Copy, PartialEq, Eq)]
pub enum ReadingError {
    Unusable,
    TooLarge,
}

// Grounds 7 and 8.
impl From<ReadingError> for Refusal {
    ghost from_gives = { λ error refusal. refusal ≡ refusal_of error };

    fn from(error: ReadingError) -> Refusal {
        match error {
            ReadingError::Unusable => Refusal::ReadingUnusable,
            ReadingError::TooLarge => Refusal::ConcentrationTooHigh,
        }
    }
}
