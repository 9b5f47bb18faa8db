// An entry of a channel's log.
use crate::act::Act;
use crate::tag::Tag;

/// An entry of a log: an act, and the transaction that did it.
#[derive(Debug, Clone, Copy, PartialEq, Eq)]
pub struct Entry {
    /// The transaction that did the act.
    pub tag: Tag,
    /// The act.
    pub act: Act,
}
