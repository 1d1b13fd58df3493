// Numbers in a list of bytes, and what is said of the numbers below another: sums, tests, and the search by halves.
#![tactic(auto)]

mod bytes;
mod search;
mod tests;

pub use bytes::{u8_at, u16_at, u32_at, u64_at};
pub use search::first_where;
pub use tests::some_below;
