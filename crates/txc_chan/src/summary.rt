// A snapshot of a channel without its log.
use txc_base::{Item, Kind, List};

/// A snapshot of a channel without its log, but with the length of the log. It is available for every type of log.
#[derive(Debug, Clone, PartialEq, Eq, Drop)]
pub struct Summary {
    /// Its kind.
    pub kind: Kind,
    /// The most items that it can hold after a write, or 0 if the kind has no bound.
    pub bound: u64,
    /// Whether it is closed.
    pub closed: bool,
    /// The number of entries in its log, including entries that are not in memory.
    pub log_len: usize,
    /// The unread items of each reader, by reader number.
    pub remaining: List<List<Item>>,
}
