// The limits of the periods, as specs/Minutes.antt and specs/Opening.antt name them.

// A call has 1 to so many periods.
pub const MAX_PERIODS: usize = 32;

// And a period 1 to so many minutes.
pub const MAX_MINUTES: u32 = 1440;

// Once a minute, in hundredths per hour.
pub(crate) const ONCE_A_MINUTE: u64 = 6000;
