// The states of a cell.

/// The cell is empty.
pub(crate) const EMPTY: u64 = 0;

/// The cell is empty, and one permit can fill it.
pub(crate) const CLAIMED: u64 = 1;

/// The cell is full.
pub(crate) const FULL: u64 = 2;
