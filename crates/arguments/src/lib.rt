// What a program is given: a file's bytes or those of standard input,
// and numbers in digits; what it says of itself, and how it ends.
#![tactic(auto)]

mod ending;
mod help;
mod input;
mod numbers;

pub use ending::ended;
pub use help::{help_given, is_text, remark_text};
pub use input::{first_bytes, read_file, read_input};
pub use numbers::{number_written, read_number, read_numbers};
