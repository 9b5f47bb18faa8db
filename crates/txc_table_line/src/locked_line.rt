// A line that is locked.
ghost use Rattle.std.specs.Prelude.{◌≡◌, ◌≢◌, ◌<◌, ◌≤◌, ◌+◌, ℕ, None, true, length, slice_get, IfErr, IfOk};
ghost use Rattle.std.specs.Prelude.{IfSome, OnErr};
ghost use mathlib.Core.List.{IsPrefix};
ghost use Rattle.txc_base.specs.Kinds.{supports};
ghost use Rattle.txc_base.specs.Operation.{Waits, operate};
ghost use Rattle.txc_chan.specs.Logged.{MatchesLog, Stopped, Undone, UnlessReplied, did, op_on};
ghost use Rattle.txc_chan.specs.Chan.{account_of};
ghost use Rattle.txc_table_line.specs.Account.{IsAccount, IsSnapshotOf};
ghost use Rattle.txc_table_line.specs.Marks.{AreMarks};
ghost use Rattle.txc_table_line.specs.Known.{IsKnown};

use crate::ledger_shares::LedgerShares;
use crate::line_chan::LineChan;
use crate::line_lock::{AsLineLock, LineLock};
use crate::seat_share::SeatShare;
use crate::snapshot_kind::SnapshotKind;
use std::marker::Model;
use std::snapshot::Snapshot;
use std::sync::Wait;
use txc_base::{Cause, Entry, Op, Stop, Tag};
use txc_chan::{Answer, Append, FullLog, Log};
use txc_table_lock::LockToken;

/// A line that is locked, until this is dropped, with its lock or a reference to it. In a contract it is its channel.
pub struct LockedLine<K: Log, L: AsLineLock<K> = LineLock<K>> {
    pub(crate) lock: L,
    pub(crate) token: LockToken<LineChan<K>, Snapshot<LineChan<K>>>,
}

impl<K: Log, L: AsLineLock<K>> Model for LockedLine<K, L> {
    ghost use Rattle.std.specs.Prelude.{◌≡◌};
    ghost use Rattle.txc_table_lock.specs.Lock.{HasValue};
    ghost use Rattle.txc_table_line.specs.LineChan.{LineChanView, lent};

    ghost Value = { LineChanView };

    ghost view = { λ line. lent line.token.seat.me.1 };

    ghost invariant = { λ line. (line.token.seat.table_id ≡ (L.of_line line.lock).id)
        × HasValue (λ channel. channel.line ≡ (L.of_line line.lock).label) line.token.seat.me };
}

impl<K: Log, L: AsLineLock<K>> LockedLine<K, L> {
    /// Runs an operation on the channel, like `Chan::apply`. Returns the answer, or the stop of the operation. After a
    /// retry or an error the channel is unchanged. It blocks only if the handle permits it, on a broadcast channel.
    pub fn apply<R: Append>(
        &mut self,
        rt: &R,
        tag: Tag,
        op: &Op,
        last: Option<u64>,
    ) -> Result<Answer, Stop>
        requires { supports self.old.held.logged.decl.kind op.now ≡ true }
        ensures ok { IfOk result (λ answer. op_on self.old.held.logged tag last op.now
            ≡ did answer self.new.held.logged) }
        ensures err { IfErr result (λ stop. stop ≢ Stop.NoMemory
            → op_on self.old.held.logged tag last op.now ≡ Stopped stop) }
        ensures retry { IfOk result (λ answer. UnlessReplied answer (self.new.held.logged ≡ self.old.held.logged)) }
        ensures unchanged { OnErr result (self.new.held.logged ≡ self.old.held.logged) }
        ensures line { self.new.line ≡ self.old.line }
    {
        self.token
            .seat
            .slot_mut(self.lock.lock().shared(), 0)
            .apply(rt, tag, op, last)
    }

    /// Undoes the last entry of the channel, one that can be undone.
    pub fn undo_last(&mut self)
        requires { 0 < self.old.held.logged.pending }
        ensures undone { Undone self.old.held.logged self.new.held.logged }
        ensures line { self.new.line ≡ self.old.line }
    {
        self.token
            .seat
            .slot_mut(self.lock.lock().shared(), 0)
            .undo_last()
    }

    /// Returns the stamp of the channel.
    pub fn stamp(&mut self) -> u64
        ensures value { result ≡ self.old.held.logged.stamp }
        ensures same { self.new ≡ self.old }
    {
        self.token
            .seat
            .slot_mut(self.lock.lock().shared(), 0)
            .chan
            .stamp()
    }

    /// Returns how many entries of the channel's log can be undone.
    pub fn pending(&mut self) -> usize
        ensures value { result ≡ self.old.held.logged.pending }
        ensures lawful { MatchesLog self.old.held.logged }
        ensures same { self.new ≡ self.old }
    {
        self.token
            .seat
            .slot_mut(self.lock.lock().shared(), 0)
            .chan
            .pending()
    }

    /// Returns how many entries the channel's log has.
    pub fn log_len(&mut self) -> usize
        ensures value { result ≡ length self.old.held.logged.log }
        ensures same { self.new ≡ self.old }
    {
        self.token
            .seat
            .slot_mut(self.lock.lock().shared(), 0)
            .chan
            .log_len()
    }

    /// Returns the entry at this place of the channel's log, one that can be undone.
    pub fn entry(&mut self, place: usize) -> Option<Entry>
        requires { length self.old.held.logged.log ≤ place + self.old.held.logged.pending }
        ensures value { result ≡ slice_get self.old.held.logged.log place }
        ensures same { self.new ≡ self.old }
    {
        self.token
            .seat
            .slot_mut(self.lock.lock().shared(), 0)
            .chan
            .entry(place)
    }

    /// Returns the cause for which a write or a read must wait, like `Chan::cause_to_wait`.
    pub fn cause_to_wait(&mut self, op: &Op) -> Option<Cause>
        requires { supports self.old.held.logged.decl.kind op.now ≡ true }
        ensures cause { (seat : ℕ) → IfSome result (λ cause.
            operate self.old.held.logged.channel seat None op.now ≡ Waits cause) }
        ensures same { self.new ≡ self.old }
    {
        self.token
            .seat
            .slot_mut(self.lock.lock().shared(), 0)
            .chan()
            .cause_to_wait(op)
    }

    /// Returns a snapshot of the channel, in which nothing may be left to undo. The share has then seen the log.
    /// Returns `NoMemory` if an allocation fails, and no other error; the share is then unchanged.
    pub fn take_snapshot<T: SnapshotKind<K>>(
        &mut self,
        share: &mut SeatShare<K>,
    ) -> Result<T::Output, Stop>
        requires of { share.old.line ≡ self.old.line }
        requires clean { self.old.held.logged.pending ≡ 0 }
        ensures ok { IfOk result (IsSnapshotOf T.snapshot_of share.old.line.decl share.old.amount share.new.log) }
        ensures grew { IsPrefix share.old.log share.new.log }
        ensures err { IfErr result (λ stop. stop ≡ Stop.NoMemory) }
        ensures rest { (share.new.line ≡ share.old.line) × (share.new.amount ≡ share.old.amount)
            × (share.new.made ≡ share.old.made) × (share.new.marks ≡ share.old.marks) }
        ensures unchanged { OnErr result (share.new ≡ share.old) }
        ensures same { self.new ≡ self.old }
    {
        share.take_snapshot_of::<T>(self.token.seat.slot_mut(self.lock.lock().shared(), 0))
    }

    /// Undoes all entries that can be undone.
    pub fn clean(&mut self)
        ensures clean { self.new.held.logged.pending ≡ 0 }
        ensures marks { self.new.marks ≡ self.old.marks }
        ensures line { self.new.line ≡ self.old.line }
    {
        self.token
            .seat
            .slot_mut(self.lock.lock().shared(), 0)
            .clean();
    }

    /// Returns a snapshot of the channel, in which nothing may be left to undo. Returns `NoMemory` if an allocation
    /// fails, and no other error.
    pub fn extract<T: SnapshotKind<K>>(&mut self) -> Result<T::Output, Stop>
        requires { self.old.held.logged.pending ≡ 0 }
        ensures ok { IfOk result (λ snapshot. snapshot ≡ T.snapshot_of self.old.held) }
        ensures of { IsAccount self.old.line.decl (length self.old.held.logged.log) (account_of self.old.held) }
        ensures err { IfErr result (λ stop. stop ≡ Stop.NoMemory) }
        ensures same { self.new ≡ self.old }
    {
        self.token
            .seat
            .slot_mut(self.lock.lock().shared(), 0)
            .take_snapshot::<T>()
    }

    /// Shows what is true of every channel of a line: it is as declared, true to its log, and has these marks. Does
    /// nothing at run time.
    pub fn show(&mut self)
        ensures lawful { MatchesLog self.old.held.logged }
        ensures decl { self.old.held.logged.decl ≡ self.old.line.decl }
        ensures marks { AreMarks self.old.held.logged self.old.marks }
        ensures same { self.new ≡ self.old }
    {
        self.token
            .seat
            .slot_mut(self.lock.lock().shared(), 0)
            .show();
    }

    /// Shows that the channel, in which nothing may be left to undo, is as declared and true to its log, which begins
    /// with what a seat has seen of it and has at least the entries that the seat has made; the marks begin with what
    /// the seat has seen of them. Does nothing at run time.
    pub fn show_known(&mut self, share: &mut SeatShare<K>)
        requires of { share.old.line ≡ self.old.line }
        requires clean { self.old.held.logged.pending ≡ 0 }
        ensures known { IsKnown self.old.line.decl share.old.amount self.old.held.logged }
        ensures since { IsPrefix share.old.log self.old.held.logged.log }
        ensures marks { IsPrefix share.old.marks self.old.marks }
        ensures share { share.new ≡ share.old }
        ensures same { self.new ≡ self.old }
    {
        share.show_known(self.token.seat.slot_mut(self.lock.lock().shared(), 0));
    }

    /// Returns shares of the line's ledgers without a part, which count nothing. Does nothing at run time.
    pub fn empty_shares(&mut self) -> LedgerShares
        ensures same { self.new ≡ self.old }
        ensures ledgers { result.ledgers ≡ self.old.line.ledgers }
        ensures none { (result.parts ≡ 0) × (result.amount ≡ 0) × (result.made ≡ 0) }
    {
        self.token
            .seat
            .slot_mut(self.lock.lock().shared(), 0)
            .empty_shares()
    }

    /// Shows that the shares of all seats count the whole log, in which nothing may be left to undo, and all marks.
    /// Does nothing at run time.
    pub fn show_whole(&mut self, shares: &mut LedgerShares)
        requires of { shares.old.ledgers ≡ self.old.line.ledgers }
        requires parts { shares.old.parts ≡ self.old.line.ledgers.seats }
        requires clean { self.old.held.logged.pending ≡ 0 }
        ensures whole { length self.old.held.logged.log ≡ shares.old.amount }
        ensures all { length self.old.marks ≡ shares.old.made }
        ensures shares { shares.new ≡ shares.old }
        ensures same { self.new ≡ self.old }
    {
        self.token
            .seat
            .slot_mut(self.lock.lock().shared(), 0)
            .show_whole(shares);
    }
}

impl<K: Log> LockedLine<K> {
    /// Locks a line, and undoes what was not committed. A lock whose guard was never dropped blocks for ever.
    pub fn new<R: Wait>(rt: &R, lock: LineLock<K>) -> LockedLine<K>
        ensures line { result.line ≡ lock.label.value.line }
        ensures clean { result.held.logged.pending ≡ 0 }
    {
        let mut token = lock.lock(rt, 0);
        token.seat.slot_mut(lock.shared(), 0).clean();
        LockedLine { lock, token }
    }

    /// Unlocks the line, and returns its lock.
    pub fn into_lock(self) -> LineLock<K>
        ensures { result.label.value.line ≡ self.line }
    {
        let LockedLine { lock, token } = self;
        lock.unlock(token);
        lock
    }
}

impl LockedLine<FullLog> {
    /// Takes the channel out of its lock, and returns its whole log, in which nothing may be left to undo. The shares
    /// must be those of all seats: they show that the log does not change meanwhile. The lock is free, so this does not
    /// block.
    pub fn into_log<R: Wait>(self, rt: &R, shares: &mut LedgerShares) -> Vec<Entry>
        requires of { shares.old.ledgers ≡ self.line.ledgers }
        requires parts { shares.old.parts ≡ self.line.ledgers.seats }
        requires clean { self.held.logged.pending ≡ 0 }
        ensures log { result.items ≡ self.held.logged.log }
        ensures shares { shares.new ≡ shares.old }
    {
        let LockedLine { lock, mut token } = self;
        let channel = token.seat.slot_mut(lock.shared(), 0);
        channel.show_whole(shares);
        let seen = channel.seen();
        lock.unlock(token);
        let mut channel = LineChan::from_lock(rt, lock);
        channel.show_whole(shares);
        channel.show_past(&seen);
        channel.into_log()
    }
}

impl<K: Log, L: AsLineLock<K>> Drop for LockedLine<K, L> {
    fn drop(self) {
        let LockedLine { lock, token } = self;
        lock.lock().unlock(token);
    }
}
