// Recorded cases, one after the other in a reader, each answered as soon as it is there.
#![tactic(auto)]

mod answering;
mod input;

pub use answering::{answer_all, answer_cases, answer_records};
pub use input::{Shape, read_record};
