// An act of a transaction, with its place.
use txc_base::Act;

/// An act of a transaction, with its place in the log of its channel.
#[derive(Debug, Clone, Copy, PartialEq, Eq)]
pub struct Deed {
    /// The number of the channel.
    pub chan: u16,
    /// The number of entries in the channel's log just before it.
    pub place: usize,
    /// The act.
    pub act: Act,
}
