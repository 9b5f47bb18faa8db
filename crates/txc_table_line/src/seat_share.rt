// What a seat has of a line.
ghost use Rattle.std.specs.Prelude.{◌≡◌, ◌<◌, ◌≤◌, ◌+◌, length, All, IfOk, IfErr, OnErr};
ghost use mathlib.Core.List.{IsPrefix};
ghost use Rattle.txc_chan.specs.Body.{last_entries};
ghost use Rattle.txc_chan.specs.Logged.{settled};
ghost use Rattle.txc_table_line.specs.Account.{IsSnapshotOf};
ghost use Rattle.txc_table_line.specs.Marks.{HasNewMark};
ghost use Rattle.txc_table_line.specs.Known.{IsKnown};
ghost use Rattle.txc_table_line.specs.SeatShare.{IsValidShare};

use crate::ledger_shares::LedgerShares;
use crate::line_chan::LineChan;
use crate::mark::Mark;
use crate::snapshot_kind::SnapshotKind;
use std::marker::Model;
use std::snapshot::Snapshot;
use txc_base::{Entry, Stop, Tag};
use txc_base_ghost::ListPrefix;
use txc_chan::Log;

mod commit;

/// What a seat has of a line: a part of the line's ledgers, the channel when the seat last committed on it or saw it,
/// and tokens of its log and of its marks. In a contract it is which line it is, how many entries and marks the seat
/// has made, and what it has seen of the log and of the marks. It has no bytes.
#[derive(Drop)]
pub struct SeatShare<K: Log> {
    pub(crate) shares: LedgerShares,
    known: Snapshot<LineChan<K>>,
    seen: ListPrefix<Entry>,
    marks: ListPrefix<Mark>,
}

impl<K: Log> Model for SeatShare<K> {
    ghost use Rattle.txc_table_line.specs.SeatShare.{IsSeatShare, SeatShareView};

    ghost Value = { SeatShareView };

    ghost view = { λ share. record {
      line = record {
        decl = share.known.value.line.decl;
        ledgers = share.shares.ledgers;
        lists = record { log = share.seen.name; marks = share.marks.name };
      };
      amount = share.shares.amount;
      log = share.seen.log;
      made = share.shares.made;
      marks = share.marks.log;
      known = share.known.value.held.logged;
    } };

    ghost invariant = { λ share. IsSeatShare share.known.value.line.decl share.shares.parts share.shares.amount
        share.seen.log share.known.value.held.logged };
}

impl<K: Log> SeatShare<K> {
    /// Makes what a new seat has of a line, of one part that counts nothing. The seat has then seen the channel's log,
    /// in which nothing may be left to undo. Does nothing at run time.
    pub fn new(shares: LedgerShares, channel: &mut LineChan<K>) -> SeatShare<K>
        requires of { shares.ledgers ≡ channel.old.line.ledgers }
        requires part { (shares.parts ≡ 1) × (shares.amount ≡ 0) × (shares.made ≡ 0) }
        requires clean { channel.old.held.logged.pending ≡ 0 }
        ensures line { result.line ≡ channel.old.line }
        ensures none { (result.amount ≡ 0) × (result.made ≡ 0) }
        ensures seen { result.log ≡ channel.old.held.logged.log }
        ensures marks { result.marks ≡ channel.old.marks }
        ensures known { result.known ≡ channel.old.held.logged }
        ensures same { channel.new ≡ channel.old }
    {
        channel.show();
        let seen = channel.seen();
        let marks = channel.seen_marks();
        SeatShare {
            shares,
            known: Snapshot::of(channel),
            seen,
            marks,
        }
    }

    /// Shows what is true of every share: the seat knows a channel of the line, whose log begins with what the seat has
    /// seen of it, and it has made at most the greatest number of entries. Does nothing at run time.
    pub fn show(&self)
        ensures { IsValidShare self.now }
    {
        // Only for the proof: the read of a field shows the invariant of the type.
        let _ = &self.shares;
    }

    /// Commits what can be undone in the channel of the line, with the stamp of the tag, which must be later than the
    /// channel's, and counts it. The seat has then seen the log.
    pub fn settle(&mut self, channel: &mut LineChan<K>, tag: Tag)
        requires of { self.old.line ≡ channel.old.line }
        requires stamped { All (λ entry. entry.tag.stamp ≡ tag.stamp)
            (last_entries channel.old.held.logged.pending channel.old.held.logged.log) }
        requires later { channel.old.held.logged.stamp < tag.stamp }
        ensures settled { channel.new.held.logged ≡ settled tag.stamp channel.old.held.logged }
        ensures line { (self.new.line ≡ self.old.line) × (channel.new.line ≡ channel.old.line) }
        ensures amount { self.new.amount ≡ self.old.amount + channel.old.held.logged.pending }
        ensures seen { self.new.log ≡ channel.old.held.logged.log }
        ensures made { self.new.made ≡ self.old.made + 1 }
        ensures marked { HasNewMark channel.old.held.logged tag self.old.marks self.new.marks }
        ensures known { self.new.known ≡ channel.new.held.logged }
    {
        channel.show();
        channel.show_marks(&self.marks);
        channel.settle(&mut self.shares, tag);
        channel.show();
        channel.show_bound(&mut self.shares);
        // Only for the proof: the log's length is a `usize`, so what the seat has made is at most `GREATEST_NUMBER`.
        let _few = channel.chan.log_len();
        self.known = Snapshot::of(channel);
        self.seen = channel.seen();
        self.marks = channel.seen_marks();
    }

    /// Returns the shares of the ledgers. Does nothing at run time.
    pub fn into_shares(self) -> LedgerShares
        ensures ledgers { result.ledgers ≡ self.line.ledgers }
        ensures part { result.parts ≡ 1 }
        ensures amount { result.amount ≡ self.amount }
        ensures made { result.made ≡ self.made }
    {
        self.shares
    }

    /// Shows that the channel of the line, in which nothing may be left to undo, is as declared and true to its log,
    /// which begins with what the seat has seen of it and has at least the entries that the seat has made; so do the
    /// marks. Does nothing at run time.
    pub fn show_known(&mut self, channel: &mut LineChan<K>)
        requires of { self.old.line ≡ channel.old.line }
        requires clean { channel.old.held.logged.pending ≡ 0 }
        ensures known { IsKnown self.old.line.decl self.old.amount channel.old.held.logged }
        ensures since { IsPrefix self.old.log channel.old.held.logged.log }
        ensures marks { IsPrefix self.old.marks channel.old.marks }
        ensures share { self.new ≡ self.old }
        ensures same { channel.new ≡ channel.old }
    {
        channel.show();
        channel.show_bound(&mut self.shares);
        channel.show_past(&self.seen);
        channel.show_marks(&self.marks);
    }

    /// Compares what two seats have seen of a line's log, and shows that the longer begins with the shorter. Does
    /// nothing at run time.
    pub fn show_order(&self, other: &SeatShare<K>)
        requires { other.now.line ≡ self.now.line }
        ensures { length self.now.log ≤ length other.now.log → IsPrefix self.now.log other.now.log }
    {
        self.seen.show_order(&other.seen);
    }

    /// Returns a snapshot of the channel, in which nothing may be left to undo. The seat has then seen the log. Returns
    /// `NoMemory` if an allocation fails, and no other error; the share is then unchanged.
    pub(crate) fn take_snapshot_of<T: SnapshotKind<K>>(
        &mut self,
        channel: &mut LineChan<K>,
    ) -> Result<T::Output, Stop>
        requires of { self.old.line ≡ channel.old.line }
        requires clean { channel.old.held.logged.pending ≡ 0 }
        ensures ok { IfOk result (IsSnapshotOf T.snapshot_of self.old.line.decl self.old.amount self.new.log) }
        ensures grew { IsPrefix self.old.log self.new.log }
        ensures err { IfErr result (λ stop. stop ≡ Stop.NoMemory) }
        ensures rest { (self.new.line ≡ self.old.line) × (self.new.amount ≡ self.old.amount)
            × (self.new.made ≡ self.old.made) × (self.new.marks ≡ self.old.marks) }
        ensures unchanged { OnErr result (self.new ≡ self.old) }
        ensures same { channel.new ≡ channel.old }
    {
        self.show_known(channel);
        let snapshot = channel.take_snapshot::<T>()?;
        self.see(channel);
        Ok(snapshot)
    }

    /// The seat has now seen the channel's log, in which nothing may be left to undo. Does nothing at run time.
    fn see(&mut self, channel: &mut LineChan<K>)
        requires of { self.old.line ≡ channel.old.line }
        requires clean { channel.old.held.logged.pending ≡ 0 }
        requires long { self.old.amount ≤ length channel.old.held.logged.log }
        ensures same { channel.new ≡ channel.old }
        ensures seen { self.new.log ≡ channel.old.held.logged.log }
        ensures rest { (self.new.line ≡ self.old.line) × (self.new.amount ≡ self.old.amount)
            × (self.new.made ≡ self.old.made) × (self.new.marks ≡ self.old.marks) }
        ensures known { self.new.known ≡ channel.old.held.logged }
    {
        channel.show();
        self.known = Snapshot::of(channel);
        self.seen = channel.seen();
    }
}
