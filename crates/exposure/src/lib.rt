// The exposure of the people in a room: two groups with their limits, the defaults by name, and the sums that a verdict
// reads.
#![tactic(auto)]

mod accepted;
mod durations;
mod groups;
mod kind;
mod totals;

pub use accepted::AcceptedExposure;
pub use groups::{Exposure, Group};
pub use kind::Kind;
pub use totals::Totals;

// Ground 6 (`exposure_out_of_range` of specs/Exposure.antt).
pub use groups::out_of_range;

// What the shares of the years are parts of, for dose.
pub use durations::HUNDREDTHS;

// X and Y of a kind, of an exposure within its limits (`totals_of` of specs/Totals.antt).
pub use totals::totals_of;
