// A chain book: its bytes, the checks of it, and its chain in arrays, read once.
#![tactic(auto)]

mod accepted;
mod chain;
mod checks;
mod coefficients;
mod feed;
mod feeds;
mod fields;
mod filling;
mod header;
mod held;
mod layout;
mod limits;
mod rate;

pub use accepted::AcceptedChain;
pub use chain::HeldChain;
pub use checks::check_book;
pub use coefficients::{coefficient_at, coefficients_at};
pub use feed::Feed;
pub use fields::first_coefficient;
pub use filling::fill_first;
pub use header::{feed_count, member_count, working_level_divisor};
pub use held::read_chain;
pub use layout::{
    COEFFICIENTS, Coefficients, FEED_LENGTH, HEADER_LENGTH, LONGEST_BOOK, MEMBER_LENGTH,
};
pub use limits::{
    MAX_COEFFICIENT, MAX_FEEDS, MAX_HALF_LIFE, MAX_MEMBERS, MAX_PARENT_HALF_LIFE, MAX_RATE,
    WHOLE_SHARE,
};
pub use rate::Rate;
