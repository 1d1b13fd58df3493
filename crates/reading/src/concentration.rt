// From a reading to the concentration of its medium.
ghost use Rattle.std.specs.Prelude.{◌≡◌, ◌≤◌, IfOk};
ghost use Rattle.reading.specs.Reading.{max_concentration, through_medium, unit_of, intake_answer};
ghost use Rattle.reading.specs.Private.Parts.{sum_of};

use crate::amounts::{Medium, Reading, Unit};
use crate::codes;
use crate::conversion::{whole, within_limit};
use crate::error::ReadingError;
use crate::rounding::product_rounded_up;

// The whole attenuation: AF is in millionths.
pub const WHOLE_ATTENUATION: u32 = 1_000_000;

// Henry's constant of source 001, 4.34, in hundredths.
const HENRY_CONSTANT: u64 = 434;

// What Henry's constant times AF is in: hundredths of millionths.
const WHOLE_HENRY_ATTENUATION: u64 = 100_000_000;

// The concentration that a reading in the unit of a code stands for.
pub fn intake(unit: u8, medium: Medium, af: u32, reading: Reading) -> Result<u64, ReadingError>
    ensures { result ≡ intake_answer (unit_of unit) medium af reading }
{
    intake_in(codes::unit(unit), medium, af, reading)
}

// The same of a unit: value and uncertainty are each converted, added, and taken through the medium with attenuation
// `af`.
pub fn intake_in(unit: Unit, medium: Medium, af: u32, reading: Reading) -> Result<u64, ReadingError>
    ensures { result ≡ intake_answer unit medium af reading }
{
    let value = whole(unit.amount(reading.value));
    let uncertainty = whole(unit.amount(reading.uncertainty));
    let total = sum(value, uncertainty)?;
    within_limit(through_medium(medium, af, total))
}

// An unusable part comes before one that is too large.
fn sum(
    value: Result<u64, ReadingError>,
    uncertainty: Result<u64, ReadingError>,
) -> Result<u64, ReadingError>
    requires value { IfOk value (λ n. n ≤ max_concentration) }
    requires uncertainty { IfOk uncertainty (λ n. n ≤ max_concentration) }
    ensures { result ≡ sum_of value uncertainty }
{
    if uncertainty == Err(ReadingError::Unusable) {
        return uncertainty;
    }
    within_limit(value? + uncertainty?)
}

#[tactic(auto, using(crate::proofs::Ceiling::div_ceil_is))]
fn through_medium(medium: Medium, af: u32, number: u64) -> u64
    requires { number ≤ max_concentration }
    ensures { result ≡ through_medium medium af number }
{
    let attenuated = number * u64::from(af);
    match medium {
        Medium::IndoorAir => number,
        Medium::SoilGas => attenuated.div_ceil(u64::from(WHOLE_ATTENUATION)),
        Medium::Groundwater => {
            product_rounded_up(attenuated, HENRY_CONSTANT, WHOLE_HENRY_ATTENUATION)
        },
    }
}
