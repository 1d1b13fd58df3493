// The coefficients in use: a book's own, or a second set that is lent beside it.
#![tactic(auto)]

mod check;
mod rows;
mod set;

pub use check::check_second;
pub use rows::{NumbersInUse, numbers_in_use};
pub use set::{CoefficientSet, GROUP_LENGTH, LONGEST_SET, set_in_use};
