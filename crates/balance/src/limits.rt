// The numbers of the balance, as specs/Balance.antt names them.

// G, the parent's factor in grains; a grain is 2^-40 of its activity.
pub const GRAINS: u64 = 1_099_511_627_776;

// K, which holds ln 2.
pub const DECAY: u64 = 249_532_985_160_000;
