// The limits that hold everywhere.

/// The largest bound of a channel.
pub const MAX_BOUND: u64 = 65_535;

/// The most readers that a broadcast channel has.
pub const MAX_READERS: u64 = 64;

/// The most channels of a script, and of a table unless it is made as a large one.
pub const MAX_CHANNELS: usize = 8;

/// The most seats of a script, and of a table unless it is made as a large one.
pub const MAX_SEATS: usize = 16;

/// The most channels of a large table.
pub const MAX_CHANNELS_OF_LARGE: usize = 1_024;

/// The most seats of a large table: one for each bit of the words by which seats wait.
pub const MAX_SEATS_OF_LARGE: usize = 64;

/// The greatest serial, the greatest stamp, and the most entries of a log.
pub const GREATEST_NUMBER: u64 = u64::MAX;
