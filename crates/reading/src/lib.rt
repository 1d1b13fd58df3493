// The reading of a meter: from an f64 in one of three units to a concentration in whole mBq/m³, always rounded up.
// Every public function takes every input.
#![tactic(auto)]

mod amounts;
mod binary64;
mod codes;
mod concentration;
mod conversion;
mod error;
mod rounding;

pub use amounts::{Amount, Medium, Reading, Unit};

// Why a reading has no concentration, and its ground, 7 or 8 (`refusal_of` of specs/Reading.antt).
pub use error::ReadingError;

// One amount: the smallest whole number of mBq/m³ not below its exact value (`whole_answer` of specs/Reading.antt,
// `ReadingPromise` of specs/Promises.antt).
pub use conversion::whole;

// A reading with its uncertainty, in its medium: the concentration, or ground 7 or 8 (`intake_answer` of
// specs/Reading.antt), in the unit of any code, and in a unit.
pub use concentration::{intake, intake_in};

// The whole attenuation, in the millionths in which the intake takes it.
pub use concentration::WHOLE_ATTENUATION;

// The unit of a code (`unit_of`), the amount of a figure in it (`amount_of`), and
// the medium of a code (`medium_of`), for every code. Of a unit and of a medium
// `TryFrom` refuses an unknown code by ground 2 (`unit_coded`, `medium_coded`).
pub use codes::{amount, medium, unit};

// The bit pattern of an f64: whether ground 7 refuses it (`unusable`), and its f64 (`float_of`).
pub use binary64::{bits_unusable, float};
