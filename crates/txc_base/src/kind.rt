// The six kinds of channel, and the operations of each.
ghost use Rattle.std.specs.Prelude.{◌≡◌};
ghost use Rattle.txc_base.specs.Kinds.{name_of, is_bounded, is_broadcast, is_closable, allowed_for, names_its_reader};
ghost use Rattle.txc_base.specs.Kinds.{supports};

use crate::op::Op;
use std::fmt;
use std::str::FromStr;
use thiserror::Error;

/// All kinds, each once.
const KINDS: [Kind; 6] = [
    Kind::Queue,
    Kind::Bounded,
    Kind::Cast,
    Kind::MQueue,
    Kind::BMQueue,
    Kind::MCast,
];

/// A kind of channel.
#[derive(Debug, Clone, Copy, PartialEq, Eq)]
pub enum Kind {
    /// `TQueue`: a queue.
    Queue,
    /// `TBQueue`: a queue with a bound.
    Bounded,
    /// `TChan`: every reader gets every item.
    Cast,
    /// `TMQueue`: a queue that can be closed.
    MQueue,
    /// `TBMQueue`: a queue with a bound that can be closed.
    BMQueue,
    /// `TMChan`: every reader gets every item, and it can be closed.
    MCast,
}

impl Kind {
    /// Returns the name of this kind in Haskell.
    pub fn name(&self) -> &'static str
        ensures { result.now ≡ name_of self.now }
    {
        match self {
            Kind::Queue => "TQueue",
            Kind::Bounded => "TBQueue",
            Kind::Cast => "TChan",
            Kind::MQueue => "TMQueue",
            Kind::BMQueue => "TBMQueue",
            Kind::MCast => "TMChan",
        }
    }

    /// Returns whether this kind is a queue with a bound.
    pub fn is_bounded(&self) -> bool
        ensures { result ≡ is_bounded self.now }
    {
        matches!(self, Kind::Bounded | Kind::BMQueue)
    }

    /// Returns whether every reader gets every item.
    pub fn is_broadcast(&self) -> bool
        ensures { result ≡ is_broadcast self.now }
    {
        matches!(self, Kind::Cast | Kind::MCast)
    }

    /// Returns whether a channel of this kind can be closed.
    pub fn is_closable(&self) -> bool
        ensures { result ≡ is_closable self.now }
    {
        matches!(self, Kind::MQueue | Kind::BMQueue | Kind::MCast)
    }
}

impl fmt::Display for Kind {
    ghost use Rattle.std.specs.Prelude.{Some};

    ghost output = { λ kind. Some (name_of kind) };

    fn fmt<W: fmt::Write>(&self, f: &mut fmt::Formatter<W>) -> fmt::Result {
        f.write_str(self.name())
    }
}

/// The error for a name that no kind has.
#[derive(Debug, Clone, Copy, PartialEq, Eq, Error)]
#[error("there is no such kind")]
pub struct UnknownKind;

impl FromStr for Kind {
    ghost use Rattle.std.specs.Prelude.{◌≡◌, Some, None, IfOk, OnErr};
    ghost use Rattle.txc_base.specs.Kinds.{kind_named};

    type Err = UnknownKind;

    ghost from_str_gives = { λ name made. IfOk made (λ kind. kind_named name ≡ Some kind)
        × OnErr made (kind_named name ≡ None) };

    /// Returns the kind with this name, or `UnknownKind` if there is none.
    fn from_str(name: &str) -> Result<Kind, UnknownKind> {
        for kind in KINDS {
            if name == kind.name() {
                return Ok(kind);
            }
        }
        Err(UnknownKind)
    }
}

/// Returns whether a channel of this kind has this operation.
pub fn allowed(kind: Kind, op: &Op) -> bool
    ensures { result ≡ allowed_for kind op.now }
{
    match op {
        Op::Write { .. }
        | Op::Read { .. }
        | Op::TryRead { .. }
        | Op::Peek { .. }
        | Op::TryPeek { .. }
        | Op::PutBack { .. }
        | Op::IsEmpty { .. } => true,
        Op::TryWrite { .. } => matches!(kind, Kind::BMQueue),
        Op::Close { .. } | Op::IsClosed { .. } => kind.is_closable(),
        Op::IsFull { .. } => kind.is_bounded(),
        Op::Dup { .. } | Op::CloneReader { .. } => kind.is_broadcast(),
        Op::Flush { .. } => matches!(kind, Kind::Queue | Kind::Bounded),
        Op::Length { .. } => matches!(kind, Kind::Bounded),
    }
}

/// Returns whether an operation names no reader, or one that a channel of this kind can have. A queue has only
/// reader 0.
pub fn names_its_reader(kind: Kind, op: &Op) -> bool
    ensures { result ≡ names_its_reader kind op.now }
{
    matches!(op.reader(), None | Some(0)) || kind.is_broadcast()
}

/// Returns whether a channel of this kind has this operation, and can have the reader that the operation names. A queue
/// has only reader 0.
pub fn supports(kind: Kind, op: &Op) -> bool
    ensures { result ≡ supports kind op.now }
{
    allowed(kind, op) && names_its_reader(kind, op)
}
