// A number of a printed table: read back from its nine characters, and marked against an interval of grains.
#![tactic(auto)]

mod mark;
mod places;
mod scaling;

pub use mark::{Mark, mark_of};
pub use places::{number_at, of_form, share_at};
