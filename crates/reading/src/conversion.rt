// The exact conversion of an amount to whole mBq/m³, rounded up.
ghost use Rattle.std.specs.Prelude.{◌≡◌, ◌*◌, ◌^◌, ◌<◌};
ghost use Rattle.std.specs.Float.Ieee.{of_bits};
ghost use Rattle.std.specs.Float.{binary64};
ghost use Rattle.reading.specs.Reading.{rounded_up, whole_answer};
ghost use Rattle.reading.specs.Promises.{ReadingPromise};
ghost use Rattle.reading.specs.Private.Conversion.{exponent_of, too_large_exponent, least_places, most_places};
ghost use Rattle.reading.specs.Private.Conversion.{other_places, converted, converted_answer, capped};

use crate::amounts::Amount;
use crate::binary64::{bits_unusable, exponent, significand};
use crate::error::ReadingError;
use crate::rounding::{power_of_two, product_rounded_up};

// mBq/m³ in one of each unit.
const PER_PICOCURIE_PER_LITRE: u16 = 37_000;

const PER_PICOCURIE_PER_CUBIC_METRE: u16 = 37;

const PER_BECQUEREL_PER_CUBIC_METRE: u16 = 1_000;

// The largest concentration, in mBq/m³.
const MAX_CONCENTRATION: u64 = 4_000_000_000;

// From this exponent on the value is at least 2^32, which is too large in every unit.
const TOO_LARGE_EXPONENT: u64 = 1055;

// 2^21: below that exponent the value is the significand over a power of two of at least 21 places.
const LEAST_PLACES_POWER: u64 = 0x20_0000;

// What is divided by the other places stays below 2^60, so more of them give the same.
const MOST_PLACES: u64 = 60;

// The smallest whole number of mBq/m³ not below the amount's exact value.
#[tactic(auto, using(crate::proofs::Promised::promised))]
pub fn whole(amount: Amount) -> Result<u64, ReadingError>
    ensures answered { result ≡ whole_answer amount }
    ensures sound { ReadingPromise amount result }
{
    in_its_unit(amount)
}

#[tactic(auto, unfolding(crate::specs::Reading::whole, crate::specs::Private::Conversion::converted))]
fn in_its_unit(amount: Amount) -> Result<u64, ReadingError>
    ensures { result ≡ whole_answer amount }
{
    match amount {
        Amount::PicocuriesPerLitre(x) => convert(x, PER_PICOCURIE_PER_LITRE),
        Amount::PicocuriesPerCubicMetre(x) => convert(x, PER_PICOCURIE_PER_CUBIC_METRE),
        Amount::BecquerelsPerCubicMetre(x) => convert(x, PER_BECQUEREL_PER_CUBIC_METRE),
    }
}

// A NaN has no pattern of its own, so it is told apart before the pattern is taken.
fn convert(x: f64, multiplier: u16) -> Result<u64, ReadingError>
    requires { 0 < multiplier }
    ensures { result ≡ converted_answer x multiplier }
{
    if x.is_nan() {
        return Err(ReadingError::Unusable);
    }
    convert_bits(x.to_bits(), multiplier)
}

#[tactic(auto, using(crate::proofs::Product::large))]
fn convert_bits(bits: u64, multiplier: u16) -> Result<u64, ReadingError>
    requires { 0 < multiplier }
    ensures { result ≡ converted_answer (of_bits binary64 bits) multiplier }
{
    if bits_unusable(bits) {
        return Err(ReadingError::Unusable);
    }
    if exponent(bits) >= TOO_LARGE_EXPONENT {
        return Err(ReadingError::TooLarge);
    }
    within_limit(product(bits, multiplier))
}

pub(crate) fn within_limit(number: u64) -> Result<u64, ReadingError>
    ensures { result ≡ capped number }
{
    if number > MAX_CONCENTRATION {
        return Err(ReadingError::TooLarge);
    }
    Ok(number)
}

// The product of the significand and the multiplier is divided by 2^21 first and by the other places then, each
// rounded up: a ceiling of a ceiling is the ceiling.
#[tactic(auto, using(crate::proofs::Product::product_is))]
fn product(bits: u64, multiplier: u16) -> u64
    requires { exponent_of bits < too_large_exponent }
    ensures { result ≡ converted (of_bits binary64 bits) multiplier }
{
    over_least_places(significand(bits), multiplier).div_ceil(power_of_two(other_places(bits)))
}

fn over_least_places(digits: u64, multiplier: u16) -> u64
    requires { digits < 2 ^ 53 }
    ensures value { result ≡ rounded_up (digits * multiplier) (2 ^ least_places) }
    ensures range { result < 2 ^ most_places }
{
    product_rounded_up(digits, u64::from(multiplier), LEAST_PLACES_POWER)
}

// The places beyond 21, but no more than 60. At exponent 1,054 there are none, and one more for each step down.
fn other_places(bits: u64) -> u64
    requires { exponent_of bits < too_large_exponent }
    ensures { result ≡ other_places bits }
{
    (TOO_LARGE_EXPONENT - 1 - exponent(bits)).min(MOST_PLACES)
}
