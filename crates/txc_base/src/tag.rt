// The transaction of an entry.

/// The transaction that an entry or a receipt belongs to.
#[derive(Debug, Clone, Copy, PartialEq, Eq)]
pub struct Tag {
    // The seat is last, because a field after a narrower one would be copied across two words.
    /// Its position in the order of all transactions.
    pub stamp: u64,
    /// How many transactions of its seat committed before it.
    pub serial: u64,
    /// The number of its seat.
    pub seat: u16,
}
