// The marks of commits in the history of a line.
use txc_base::Tag;

/// A mark in the history of a line. Each transaction that commits while it holds the line's lock leaves one. The list
/// of marks exists only in proofs.
#[derive(Clone, Copy)]
pub struct Mark {
    /// The tag of the transaction.
    pub tag: Tag,
    /// The length of the log, including the transaction's entries.
    pub len: u64,
}
