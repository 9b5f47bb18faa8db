// The replies to operations.
ghost use Rattle.std.specs.Prelude.{◌≡◌};
ghost use Rattle.txc_base.specs.Reply.{last_read_after};
ghost use Rattle.txc_base.specs.Text.{reply_text};

use crate::item::{Item, Items};
use crate::list::List;
use std::fmt;

/// The reply to an operation. Its transaction goes on.
#[derive(Debug, Clone, PartialEq, Eq, Drop)]
pub enum Reply {
    /// The operation was done.
    Done,
    /// The item that was read or peeked.
    Got(Item),
    /// The channel holds its bound or more, so nothing was done.
    Full,
    /// There is nothing to read.
    Empty,
    /// The channel is closed, so nothing was done.
    Closed,
    /// The reply to `Op::IsClosed`, `Op::IsEmpty` or `Op::IsFull`.
    Flag(bool),
    /// The number of the new reader.
    Reader(u16),
    /// The number of items in the channel.
    Count(u64),
    /// All items of the queue, in order.
    All(List<Item>),
}

impl Reply {
    /// Returns the body that was read or peeked last, after this reply: the reply's own if it has one, or `last`.
    pub fn last_read_after(&self, last: Option<u64>) -> Option<u64>
        ensures { result ≡ last_read_after self.now last }
    {
        match self {
            Reply::Got(item) => Some(item.body),
            _ => last,
        }
    }
}

impl fmt::Display for Reply {
    ghost use Rattle.std.specs.Prelude.{Some};

    ghost output = { λ reply. Some (reply_text reply) };

    fn fmt<W: fmt::Write>(&self, f: &mut fmt::Formatter<W>) -> fmt::Result {
        match self {
            Reply::Done => f.write_str("done"),
            Reply::Got(item) => write!(f, "got {item}"),
            Reply::Full => f.write_str("full"),
            Reply::Empty => f.write_str("empty"),
            Reply::Closed => f.write_str("closed"),
            Reply::Flag(flag) => write!(f, "{flag}"),
            Reply::Reader(number) => write!(f, "reader {number}"),
            Reply::Count(count) => write!(f, "count {count}"),
            Reply::All(items) => write!(f, "all{}", Items(items.as_slice())),
        }
    }
}
