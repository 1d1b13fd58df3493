// The lines of many rates of one book, written from the last byte to the first: so a number's digits come as it is
// divided, and its length need not be known before.
#![tactic(auto)]

mod before;
mod fours;
mod rows;
mod run;

pub use fours::FourDigits;
pub use run::{LINE_ROOM, write_lines};
