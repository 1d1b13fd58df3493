// What is written of a recorded case of each kind, given its body.
#![tactic(auto)]

mod calls;
mod parts;
mod run;
mod texts;
mod words;

pub use calls::{factors_case, opening_case, table_case};
pub use run::rates_case;
pub use texts::{lowest_case, marks_case, partner_case, report_case};
