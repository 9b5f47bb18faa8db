// The changes that a log records.
use crate::item::Item;

/// A change of a channel. Readers are given by their numbers.
#[derive(Debug, Clone, Copy, PartialEq, Eq)]
pub enum Act {
    /// The item was written.
    Wrote(Item),
    /// The reader took the item.
    Took(u16, Item),
    /// The item was put back in front of the reader's list.
    PutBack(u16, Item),
    /// The channel was closed.
    Closed,
    /// The new reader began, with nothing to read.
    Begun(u16),
    /// The second reader was made, with all that the first had to read.
    Cloned(u16, u16),
}
