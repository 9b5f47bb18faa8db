// A snapshot of a channel with its log.
use txc_base::{Entry, Item, Kind, List};

/// A snapshot of a channel with its log.
#[derive(Debug, Clone, PartialEq, Eq, Drop)]
pub struct Account {
    /// Its kind.
    pub kind: Kind,
    /// The most items that it can hold after a write, or 0 if the kind has no bound.
    pub bound: u64,
    /// The number of readers that it opened with.
    pub first_readers: u16,
    /// Whether it is closed.
    pub closed: bool,
    /// The log: all changes, in order.
    pub log: List<Entry>,
    /// The unread items of each reader, by reader number.
    pub remaining: List<List<Item>>,
    /// The slot of each written item, in order. A queue has no slots.
    pub slots: List<usize>,
}
