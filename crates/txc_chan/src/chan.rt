// A channel of any of the six kinds.
ghost use Rattle.std.specs.Prelude.{◌≡◌, ◌≢◌, ◌≤◌, ◌+◌, ◌&&◌, true, [], length, slice_get, Some, None, is_some};
ghost use Rattle.std.specs.Prelude.{IfOk, IfErr, OnOk};
ghost use Rattle.std.specs.Prelude.{OnErr};
ghost use Rattle.txc_base.specs.Kinds.{is_broadcast, supports};
ghost use Rattle.txc_base.specs.Operation.{HasActs, operate};
ghost use Rattle.txc_chan.specs.Chan.{IsShelved};
ghost use Rattle.txc_chan.specs.Limits.{declared_fault};
ghost use Rattle.txc_chan.specs.Logged.{opened, MatchesLog, op_on, did, UnlessReplied, Stopped};

use crate::answer::Answer;
use crate::body::{Body, make_body};
use crate::decl::Decl;
use crate::fault::ChanFault;
use crate::log::Log;
use crate::mode::Mode::{Blocking, Try};
use crate::steps::body_from;
use std::alloc::Global;
use std::marker::Model;
use txc_base::{Entry, Kind, Op, Reply, Stop, Tag};
use txc_cast::{Append, Shelf};

mod ask;
mod close;
pub(crate) mod commit;
mod commit_op;
mod put_back;
mod readers;
mod snapshots;
mod take;
mod undo;
mod waits;
mod write;

/// A channel of any of the six kinds, with its log. Its last entries can be undone, and it reserves room to undo
/// exactly these entries.
///
/// If the log is recorded (`FullLog`), a broadcast channel has all its items on a shelf. If the log is unrecorded
/// (`GhostLog`), a broadcast channel has a queue with the unread items of each reader.
#[derive(Drop)]
pub struct Chan<K: Log> {
    // What each transaction uses is side by side.
    stamp: u64,
    closed: bool,
    // The number of items written.
    written: u64,
    log: K,
    body: Body,
    decl: Decl,
    // The number of items put back.
    backs: u64,
}

impl<K: Log> Model for Chan<K> {
    ghost use Rattle.txc_chan.specs.Body.{channel_of, slots_of, shelf_of};
    ghost use Rattle.txc_base.specs.InOrder.{written as written_in};
    ghost use Rattle.txc_chan.specs.Chan.{IsChan};
    ghost use Rattle.txc_chan.specs.ChanView.{ChanView};

    ghost Value = { ChanView };

    ghost view = { λ chan. record {
      logged = record {
        decl = chan.decl;
        channel = channel_of chan.decl.kind chan.body chan.closed chan.written chan.backs;
        log = K.entries chan.log;
        pending = K.undoable chan.log;
        stamp = chan.stamp;
      };
      slots = slots_of chan.body (written_in (K.entries chan.log));
      shelf = shelf_of chan.body;
    } };

    ghost invariant = { λ chan. IsChan K.shelves chan.decl chan.body chan.closed chan.written chan.backs
        (K.entries chan.log) (K.undoable chan.log) };
}

impl<K: Log> Chan<K> {
    /// Makes an open and empty channel and returns it with its shelf. Only a broadcast channel whose log type uses
    /// shelves has a shelf. The bound is used only for the two bounded kinds, and the number of readers only for the
    /// two broadcast kinds.
    ///
    /// Returns `BoundTooLarge` if the bound of a bounded kind is over 65,535. Returns `TooManyReaders` if a broadcast
    /// kind is to have more than 64 readers. Returns `NoMemory` if allocation fails. Allocates.
    pub fn build(
        alloc: Global,
        kind: Kind,
        bound: u64,
        readers: u64,
    ) -> Result<(Chan<K>, Option<Shelf>), ChanFault>
        ensures ok { IfOk result (λ made. made.0.logged
            ≡ opened (record { kind = kind; bound = bound; readers = readers })) }
        ensures slots { IfOk result (λ made. made.0.slots ≡ []) }
        ensures shelf { IfOk result (λ made. made.0.shelf ≡ made.1) }
        ensures shelved { IfOk result (λ made. is_some made.1 ≡ (K.shelves && is_broadcast kind)) }
        ensures fine { OnOk result (declared_fault kind bound readers ≡ None) }
        ensures err { IfErr result (λ e. e ≢ ChanFault.NoMemory → declared_fault kind bound readers ≡ Some e) }
    {
        let decl = Decl {
            kind,
            bound,
            readers,
        };
        if let Some(fault) = decl.fault() {
            return Err(fault);
        }
        let (body, shelf) = make_body(alloc, decl, K::shelves())?;
        let chan = Chan {
            decl,
            body,
            closed: false,
            written: 0,
            backs: 0,
            log: K::new(alloc),
            stamp: 0,
        };
        Ok((chan, shelf))
    }

    /// Proves what is true of every channel, and does nothing at run time. The channel agrees with its log, and at most
    /// its whole log can be undone. A broadcast channel has a slot for each written item, and a shelf if its log type
    /// uses shelves. A queue has neither.
    pub fn show(&self)
        ensures lawful { MatchesLog self.now.logged }
        ensures pending { self.now.logged.pending ≤ length self.now.logged.log }
        ensures shelved { IsShelved K.shelves self.now }
    {
        self.show_kind();
        self.body.show();
    }

    /// Returns its kind.
    pub fn kind(&self) -> Kind
        ensures { result ≡ self.now.logged.decl.kind }
    {
        let Decl { kind, .. } = self.decl;
        kind
    }

    /// Returns the most items that it can hold after a write, or 0 if the kind has no bound.
    pub fn bound(&self) -> u64
        ensures { result ≡ self.now.logged.channel.bound }
    {
        self.body.bound()
    }

    /// Returns whether it is closed.
    pub fn closed(&self) -> bool
        ensures { result ≡ self.now.logged.channel.closed }
    {
        self.closed
    }

    /// Returns the number of readers.
    pub fn readers(&self) -> u16
        ensures { result ≡ length self.now.logged.channel.lists }
    {
        self.body.readers()
    }

    /// Returns the number of entries in its log.
    pub fn log_len(&self) -> usize
        ensures { result ≡ length self.now.logged.log }
    {
        self.log.len()
    }

    /// Returns the log entry at this place, from 0, or `None` past the end. The place must be at or past the first
    /// entry that can be undone, because earlier entries may not be in memory. `Chan::log` returns all entries of a
    /// recorded log.
    pub fn entry(&self, place: usize) -> Option<Entry>
        requires { length self.now.logged.log ≤ place + self.now.logged.pending }
        ensures { result ≡ slice_get self.now.logged.log place }
    {
        self.log.entry(place)
    }

    /// Returns how many of the last entries can be undone.
    pub fn pending(&self) -> usize
        ensures value { result ≡ self.now.logged.pending }
        ensures lawful { MatchesLog self.now.logged }
    {
        self.log.undoable()
    }

    /// Returns the stamp of the last transaction that committed on it, or 0 before the first.
    pub fn stamp(&self) -> u64
        ensures { result ≡ self.now.logged.stamp }
    {
        self.stamp
    }

    // Proves that its kind is the declared kind. Does nothing at run time.
    fn show_kind(&self)
        ensures { self.now.logged.channel.kind ≡ self.now.logged.decl.kind }
    {
        // Only for the proof: opens the invariant of the type.
        let _fields = &self.decl;
    }

    /// Does an operation of a transaction and adds its acts to the log with this tag. `last` is the body that the
    /// transaction read or peeked last. The kind of the channel must support the operation (`txc_base::supports`).
    /// Returns the reply, or `Retry` with the cause if the transaction must wait.
    ///
    /// Returns `NoReader`, `NothingRead` or `TooManyReaders` if the operation aborts. Otherwise returns `NoMemory` if
    /// the operation has acts and allocation fails. On an error and on `Retry` the channel is unchanged. Blocks only if
    /// the handle permits it, on a write to a broadcast channel. Allocates.
    pub fn apply<R: Append>(
        &mut self,
        rt: &R,
        tag: Tag,
        op: &Op,
        last: Option<u64>,
    ) -> Result<Answer, Stop>
        requires { supports self.old.logged.decl.kind op.now ≡ true }
        ensures ok { IfOk result (λ a. op_on self.old.logged tag last op.now ≡ did a self.new.logged) }
        ensures err { IfErr result (λ e. e ≢ Stop.NoMemory → op_on self.old.logged tag last op.now ≡ Stopped e) }
        ensures memory { IfErr result (λ e. e ≡ Stop.NoMemory
            → HasActs (operate self.old.logged.channel tag.seat last op.now)) }
        ensures retry { IfOk result (λ a. UnlessReplied a (self.new ≡ self.old)) }
        ensures unchanged { OnErr result (self.new ≡ self.old) }
        ensures shelf { self.new.shelf ≡ self.old.shelf }
    {
        self.show_kind();
        // Writes and reads return by themselves: a result that the arms share would be copied once more.
        match *op {
            Op::Write { body, .. } => return self.write(rt, tag, body_from(last, body), Blocking),
            Op::TryWrite { body, .. } => return self.write(rt, tag, body_from(last, body), Try),
            Op::Read { reader, .. } => return self.take(tag, reader, Blocking),
            Op::TryRead { reader, .. } => return self.take(tag, reader, Try),
            Op::Peek { reader, .. } => self.peek(reader, Blocking),
            Op::TryPeek { reader, .. } => self.peek(reader, Try),
            Op::PutBack { reader, body, .. } => self.put_back(tag, reader, body_from(last, body)),
            Op::Close { .. } => self.close(tag),
            Op::IsClosed { .. } => Ok(Answer::Replied(Reply::Flag(self.closed()))),
            Op::IsEmpty { reader, .. } => self.is_empty(reader),
            Op::IsFull { .. } => Ok(Answer::Replied(Reply::Flag(self.is_full()))),
            Op::Dup { .. } => self.dup(tag),
            Op::CloneReader { reader, .. } => self.clone_reader(tag, reader),
            Op::Flush { .. } => self.flush(tag),
            Op::Length { .. } => Ok(Answer::Replied(Reply::Count(self.count()))),
        }
    }
}
