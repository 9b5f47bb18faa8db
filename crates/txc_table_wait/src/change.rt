// What a commit changes in a channel, and what a seat waits for.
ghost use Rattle.std.specs.Prelude.{◌≡◌};
ghost use Rattle.txc_table_wait.specs.Change.{is_removed, is_added};

/// How a commit changed a channel, or the change that a waiting seat needs to proceed.
#[derive(Debug, Clone, Copy, PartialEq, Eq, Default)]
pub enum Change {
    /// An item was added, so there is more to read.
    Added,
    /// An item was taken, so there is more room.
    Removed,
    /// Something else changed, or any of these changes.
    #[default]
    Any,
}

impl Change {
    /// Returns whether the change only lets seats proceed that wait for an item.
    pub(crate) fn is_added(self) -> bool
        ensures { result ≡ is_added self }
    {
        matches!(self, Change::Added)
    }

    /// Returns whether the change only lets seats proceed that wait for room.
    pub(crate) fn is_removed(self) -> bool
        ensures { result ≡ is_removed self }
    {
        matches!(self, Change::Removed)
    }
}

/// What a seat waits for: a change of the channel with this number.
#[derive(Debug, Clone, Copy, PartialEq, Eq, Default)]
pub struct Interest {
    /// The number of the channel. A wait queue ignores channels that it does not have.
    pub chan: u16,
    /// The change of the channel.
    pub change: Change,
}
