// How long a text can be.
use book::MAX_MEMBERS;
use text::MOST_DIGITS;

// The bytes besides the numbers: "factor ", a space and a line feed.
const FACTOR_WORDS: usize = 9;

// "concentration " and "level ", a line feed each, and the verdict's line, which has 14 whatever the verdict.
const FIGURE_WORDS: usize = 36;

// "equilibrium " and "working ", a line feed each.
const WORKING_WORDS: usize = 22;

// "refused " and a line feed.
pub(crate) const REFUSED_WORDS: usize = 9;

// "set " and a line feed.
pub(crate) const SET_WORDS: usize = 5;

// No report is longer: two numbers a member, and four in the figures.
pub const REPORT_ROOM: usize = MAX_MEMBERS * (FACTOR_WORDS + 2 * MOST_DIGITS)
    + FIGURE_WORDS
    + WORKING_WORDS
    + 4 * MOST_DIGITS;
