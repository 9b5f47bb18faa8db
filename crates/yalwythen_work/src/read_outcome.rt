// The result of a read of a typed channel.
ghost use Rattle.std.specs.Prelude.{◌≡◌, false};
ghost use Rattle.yalwythen_work.specs.ReadOutcome.{is_end, value_in};

/// The result of a read of a typed channel.
#[derive(Debug, PartialEq, Eq, Drop)]
#[must_use]
pub enum ReadOutcome<V> {
    /// The value of the item that was read.
    Value(V),
    /// An item was read that has no value: it was opened before, or it is not a key of these payloads.
    Opened,
    /// The channel is closed and empty. No item was read, and none will be.
    Closed,
}

impl<V: Drop> ReadOutcome<V> {
    /// Makes the result of a read from the value of the item's payload, if the payload still had one.
    pub(crate) fn opened(value: Option<V>) -> ReadOutcome<V>
        ensures value { value_in result ≡ value }
        ensures item { is_end result ≡ false }
    {
        match value {
            Some(value) => ReadOutcome::Value(value),
            None => ReadOutcome::Opened,
        }
    }
}
