// The operations on a channel.
ghost use Rattle.std.specs.Prelude.{◌≡◌};
ghost use Rattle.txc_base.specs.Op.{chan_of, reader_of, source_of, word_of};

use crate::source::Source;
use std::fmt;

/// An operation on one channel. Channels and readers are given by their numbers, from 0.
#[derive(Debug, Clone, Copy, PartialEq, Eq)]
pub enum Op {
    /// Writes an item. Retries if the channel is at its bound.
    Write {
        chan: u16,
        body: Source,
    },
    /// Writes an item, or replies `Full` if the channel is at its bound.
    TryWrite {
        chan: u16,
        body: Source,
    },
    /// Takes the next item. Retries if there is none.
    Read {
        chan: u16,
        reader: u16,
    },
    /// Takes the next item, or replies `Empty` if there is none.
    TryRead {
        chan: u16,
        reader: u16,
    },
    /// Replies with the next item, and leaves it in the channel. Retries if there is none.
    Peek {
        chan: u16,
        reader: u16,
    },
    /// Replies with the next item, and leaves it in the channel. Replies `Empty` if there is none.
    TryPeek {
        chan: u16,
        reader: u16,
    },
    /// Puts an item in front of those that the reader has to read. Retries if a `TBQueue` is at its bound.
    PutBack {
        chan: u16,
        reader: u16,
        body: Source,
    },
    /// Closes the channel.
    Close {
        chan: u16,
    },
    /// Replies whether the channel is closed.
    IsClosed {
        chan: u16,
    },
    /// Replies whether the reader has nothing to read.
    IsEmpty {
        chan: u16,
        reader: u16,
    },
    /// Replies whether the channel holds its bound or more.
    IsFull {
        chan: u16,
    },
    /// Makes a reader that gets the items that are written from then on.
    Dup {
        chan: u16,
    },
    /// Makes a reader that gets all items that this reader would get.
    CloneReader {
        chan: u16,
        reader: u16,
    },
    /// Takes all items at once.
    Flush {
        chan: u16,
        reader: u16,
    },
    /// Replies with the number of items in the channel.
    Length {
        chan: u16,
    },
}

impl Op {
    /// Returns the number of the channel that the operation is on.
    pub fn chan(&self) -> u16
        ensures { result ≡ chan_of self.now }
    {
        match self {
            Op::Write { chan, .. }
            | Op::TryWrite { chan, .. }
            | Op::Read { chan, .. }
            | Op::TryRead { chan, .. }
            | Op::Peek { chan, .. }
            | Op::TryPeek { chan, .. }
            | Op::PutBack { chan, .. }
            | Op::Close { chan }
            | Op::IsClosed { chan }
            | Op::IsEmpty { chan, .. }
            | Op::IsFull { chan }
            | Op::Dup { chan }
            | Op::CloneReader { chan, .. }
            | Op::Flush { chan, .. }
            | Op::Length { chan } => *chan,
        }
    }

    /// Returns the number of the reader that the operation names, if it names one.
    pub fn reader(&self) -> Option<u16>
        ensures { result ≡ reader_of self.now }
    {
        match self {
            Op::Read { reader, .. }
            | Op::TryRead { reader, .. }
            | Op::Peek { reader, .. }
            | Op::TryPeek { reader, .. }
            | Op::PutBack { reader, .. }
            | Op::IsEmpty { reader, .. }
            | Op::CloneReader { reader, .. }
            | Op::Flush { reader, .. } => Some(*reader),
            _ => None,
        }
    }

    /// Returns the source of the body that the operation writes or puts back, if it does either.
    pub fn body(&self) -> Option<Source>
        ensures { result ≡ source_of self.now }
    {
        match self {
            Op::Write { body, .. } | Op::TryWrite { body, .. } | Op::PutBack { body, .. } => Some(
                *body,
            ),
            _ => None,
        }
    }

    /// Returns the word of the operation in a script.
    pub fn word(&self) -> &'static str
        ensures { result.now ≡ word_of self.now }
    {
        match self {
            Op::Write { .. } => "write",
            Op::TryWrite { .. } => "try-write",
            Op::Read { .. } => "read",
            Op::TryRead { .. } => "try-read",
            Op::Peek { .. } => "peek",
            Op::TryPeek { .. } => "try-peek",
            Op::PutBack { .. } => "put-back",
            Op::Close { .. } => "close",
            Op::IsClosed { .. } => "is-closed",
            Op::IsEmpty { .. } => "is-empty",
            Op::IsFull { .. } => "is-full",
            Op::Dup { .. } => "dup",
            Op::CloneReader { .. } => "clone",
            Op::Flush { .. } => "flush",
            Op::Length { .. } => "length",
        }
    }
}

// The form that a script has, with the reader even if a script may omit it.
impl fmt::Display for Op {
    ghost use Rattle.std.specs.Prelude.{Some};
    ghost use Rattle.txc_base.specs.Text.{op_text};

    ghost output = { λ op. Some (op_text op) };

    fn fmt<W: fmt::Write>(&self, f: &mut fmt::Formatter<W>) -> fmt::Result {
        let (word, chan) = (self.word(), self.chan());
        match (self.reader(), self.body()) {
            (None, None) => write!(f, "[\"{word}\",{chan}]"),
            (Some(reader), None) => write!(f, "[\"{word}\",{chan},{reader}]"),
            (None, Some(body)) => write!(f, "[\"{word}\",{chan},{body}]"),
            (Some(reader), Some(body)) => write!(f, "[\"{word}\",{chan},{reader},{body}]"),
        }
    }
}
