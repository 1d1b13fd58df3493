// The limits of a chain book, as specs/Limits.antt and specs/Rates.antt name them.
pub const MAX_MEMBERS: usize = 16;

pub const MAX_FEEDS: usize = 64;

// A half-life is in nanoseconds.
pub const MAX_PARENT_HALF_LIFE: u64 = 1_000_000_000_000_000;

pub const MAX_HALF_LIFE: u64 = 60_000_000_000_000;

pub const MAX_COEFFICIENT: u32 = 4_000_000_000;

// The rate of ventilation is in hundredths of an air change per hour.
pub const MAX_RATE: u32 = 100_000;

// A share is in hundred-thousandths: this many are the whole.
pub const WHOLE_SHARE: u64 = 100_000;
