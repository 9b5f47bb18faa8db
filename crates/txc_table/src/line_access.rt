// What a seat locks lines with.
use txc_chan::Log;
use txc_table_lines::{LockPermit, SeatShares};

/// What a seat has of the lines of its table, and its permit to lock them.
#[derive(Drop)]
pub(crate) struct LineAccess<K: Log> {
    pub(crate) shares: SeatShares<K>,
    pub(crate) permit: LockPermit,
}
