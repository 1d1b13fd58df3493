// The verdict on risk or yearly dose, the screening level and the working levels, from the members' numbers and
// factors, wherever these come from.
#![tactic(auto)]

mod order;
mod verdict;
mod weighted;
mod working;

pub use verdict::{Criterion, Judgement, Sums, Verdict, judged, sums_of, verdict_by};
pub use working::{WorkingLevels, alpha_sum, working_levels};
