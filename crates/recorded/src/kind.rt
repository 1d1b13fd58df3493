// What a recorded case is of, by its number.
ghost use Rattle.recorded.specs.Kinds.{Names};

use thiserror::Error;

#[derive(Clone, Copy)]
pub(crate) enum Kind {
    // A whole job, as `screen` writes it.
    Report,
    // A job, as `fan` writes it.
    Lowest,
    // The factor call.
    Factors,
    // The table call.
    Table,
    // The call for periods.
    Opening,
    // A job by a second set, as `partner` writes it.
    Partner,
    // A table and a book, as `marks` writes it.
    Marks,
    // The call for many rates.
    Rates,
}

#[derive(Debug, Drop, Error)]
#[error("recorded: no case is of kind {0}")]
pub(crate) struct UnknownKind(u8);

impl TryFrom<u8> for Kind {
    type Error = UnknownKind;

    ghost try_from_gives = { Names };

    fn try_from(number: u8) -> Result<Kind, UnknownKind> {
        match number {
            0 => Ok(Kind::Report),
            1 => Ok(Kind::Lowest),
            2 => Ok(Kind::Factors),
            3 => Ok(Kind::Table),
            4 => Ok(Kind::Opening),
            5 => Ok(Kind::Partner),
            6 => Ok(Kind::Marks),
            7 => Ok(Kind::Rates),
            _ => Err(UnknownKind(number)),
        }
    }
}
