// A channel with its ledgers.
ghost use Rattle.std.specs.Prelude.{◌≡◌, ◌≢◌, ◌<◌, ◌≤◌, ◌+◌, ◌++◌, ◌∷◌, [], true, length, All, IfOk, IfErr};
ghost use Rattle.std.specs.Prelude.{OnErr};
ghost use mathlib.Core.List.{IsPrefix};
ghost use Rattle.txc_base.specs.Kinds.{supports};
ghost use Rattle.txc_chan.specs.Body.{last_entries};
ghost use Rattle.txc_chan.specs.Chan.{account_of};
ghost use Rattle.txc_chan.specs.Logged.{MatchesLog, Stopped, Undone, UnlessReplied, did, op_on, opened, settled};
ghost use Rattle.txc_table_line.specs.Account.{IsAccount};
ghost use Rattle.txc_table_line.specs.Marks.{AreMarks};

use crate::ledger_shares::LedgerShares;
use crate::mark::Mark;
use crate::snapshot_kind::SnapshotKind;
use std::marker::Model;
use txc_base::{Entry, Op, Stop, Tag};
use txc_base_ghost::{ListAuth, ListPrefix, Tells};
use txc_base_ledger::Ledger;
use txc_chan::{Answer, Append, Chan, FullLog, Log};

mod commit;

/// A channel with what only proofs use: a list of the entries that cannot be undone, a mark for each transaction that
/// committed on it, and a ledger for the number of either. Only the channel has bytes. In a contract it is the channel,
/// the marks, and which line it is.
#[derive(Drop)]
pub struct LineChan<K: Log> {
    pub(crate) chan: Chan<K>,
    entries: Ledger,
    log: ListAuth<Entry>,
    made: Ledger,
    marks: ListAuth<Mark>,
    // Shares of the two ledgers without a part.
    none: LedgerShares,
    // No other data is on the last cache line.
    after: [u64; 8],
}

/// The log of a channel.
pub(crate) struct ChanLog;

impl<K: Log> Tells<Chan<K>, Entry> for ChanLog {
    ghost list = { λ chan. chan.logged.log };
}

impl<K: Log> Model for LineChan<K> {
    ghost use Rattle.std.specs.Prelude.{◌≡◌};
    ghost use Rattle.txc_table_line.specs.LineChan.{HasEmptyShares, HasLedgers, LineChanView};

    ghost Value = { LineChanView };

    ghost view = { λ l. record {
      line = record {
        decl = l.chan.logged.decl;
        ledgers = record { entries = l.entries.name; marks = l.made.name; seats = l.entries.whole };
        lists = record { log = l.log.name; marks = l.marks.name };
      };
      held = l.chan;
      marks = l.marks.log;
    } };

    ghost invariant = { λ l. (l.made.whole ≡ l.entries.whole)
        × HasLedgers l.chan.logged l.entries.total l.log.log l.made.total l.marks.log
        × HasEmptyShares l.entries.name l.made.name l.entries.whole l.none };
}

impl<K: Log> LineChan<K> {
    /// Makes new ledgers for a channel as it was made, for `seats` seats. Returns the channel with them, and the shares
    /// of all seats.
    pub fn new(chan: Chan<K>, seats: u16) -> (LineChan<K>, LedgerShares)
        requires { chan.logged ≡ opened chan.logged.decl }
        ensures same { result.0.held ≡ chan }
        ensures decl { result.0.line.decl ≡ chan.logged.decl }
        ensures unmarked { result.0.marks ≡ [] }
        ensures ledgers { result.1.ledgers ≡ result.0.line.ledgers }
        ensures seats { result.1.ledgers.seats ≡ seats }
        ensures parts { result.1.parts ≡ seats }
        ensures none { (result.1.amount ≡ 0) × (result.1.made ≡ 0) }
    {
        let (entries, entry_share) = Ledger::new(u64::from(seats));
        let (made, mark_share) = Ledger::new(u64::from(seats));
        let mut shares = LedgerShares {
            entries: entry_share,
            marks: mark_share,
        };
        let line_chan = LineChan {
            chan,
            entries,
            log: ListAuth::new(),
            made,
            marks: ListAuth::new(),
            none: shares.empty(),
            after: [0; 8],
        };
        (line_chan, shares)
    }

    /// Shows what is true of every channel of a line: it is as declared, true to its log, and has these marks. Does
    /// nothing at run time.
    pub fn show(&self)
        ensures lawful { MatchesLog self.now.held.logged }
        ensures decl { self.now.held.logged.decl ≡ self.now.line.decl }
        ensures marks { AreMarks self.now.held.logged self.now.marks }
    {
        self.chan.show();
    }

    /// Returns the channel.
    pub fn chan(&self) -> &Chan<K>
        ensures { result.now ≡ self.now.held }
    {
        &self.chan
    }

    /// Runs an operation on the channel, like `Chan::apply`. Returns the answer, or the stop of the operation. After a
    /// retry or an error the channel is unchanged. It blocks only if the handle permits it, on a broadcast channel.
    pub fn apply<R: Append>(
        &mut self,
        rt: &R,
        tag: Tag,
        op: &Op,
        last: Option<u64>,
    ) -> Result<Answer, Stop>
        requires { supports self.old.held.logged.decl.kind op.now ≡ true }
        ensures ok { IfOk result (λ answer. op_on self.old.held.logged tag last op.now
            ≡ did answer self.new.held.logged) }
        ensures err { IfErr result (λ stop. stop ≢ Stop.NoMemory
            → op_on self.old.held.logged tag last op.now ≡ Stopped stop) }
        ensures retry { IfOk result (λ answer. UnlessReplied answer (self.new.held.logged ≡ self.old.held.logged)) }
        ensures unchanged { OnErr result (self.new.held.logged ≡ self.old.held.logged) }
        ensures line { self.new.line ≡ self.old.line }
    {
        self.chan.apply(rt, tag, op, last)
    }

    /// Undoes the last entry of the channel, one that can be undone.
    pub fn undo_last(&mut self)
        requires { 0 < self.old.held.logged.pending }
        ensures undone { Undone self.old.held.logged self.new.held.logged }
        ensures line { self.new.line ≡ self.old.line }
    {
        self.chan.undo_last();
    }

    /// Undoes all entries that can be undone. No guard leaves any.
    pub fn clean(&mut self)
        ensures clean { self.new.held.logged.pending ≡ 0 }
        ensures marks { self.new.marks ≡ self.old.marks }
        ensures line { self.new.line ≡ self.old.line }
    {
        while self.chan.pending() > 0 {
            self.chan.undo_last();
        }
    }

    /// Shows that shares of the line's ledgers count at most the entries that cannot be undone. Does nothing at run
    /// time.
    pub fn show_bound(&mut self, shares: &mut LedgerShares)
        requires { shares.old.ledgers ≡ self.old.line.ledgers }
        ensures same { self.new ≡ self.old }
        ensures shares { shares.new ≡ shares.old }
        ensures bound { shares.old.amount + self.old.held.logged.pending ≤ length self.old.held.logged.log }
    {
        self.entries.show_bound(&mut shares.entries);
    }

    /// Shows what an account of the channel is. Nothing may be left to undo. Does nothing at run time.
    fn show_account(&self)
        requires { self.now.held.logged.pending ≡ 0 }
        ensures { IsAccount self.now.line.decl (length self.now.held.logged.log) (account_of self.now.held) }
    {
        self.chan.show();
        self.chan.show_laws();
    }

    /// Returns a snapshot of the channel, in which nothing may be left to undo. Returns `NoMemory` if an allocation
    /// fails, and no other error.
    pub fn take_snapshot<T: SnapshotKind<K>>(&self) -> Result<T::Output, Stop>
        requires { self.now.held.logged.pending ≡ 0 }
        ensures ok { IfOk result (λ snapshot. snapshot ≡ T.snapshot_of self.now.held) }
        ensures of { IsAccount self.now.line.decl (length self.now.held.logged.log) (account_of self.now.held) }
        ensures err { IfErr result (λ stop. stop ≡ Stop.NoMemory) }
    {
        self.show_account();
        T::take_snapshot(&self.chan)
    }

    /// Commits the entries that can be undone, and counts them in the ledger and in the shares. The channel gets the
    /// tag's stamp, which must be later than its own, and one more mark, even if there was no entry.
    pub fn settle(&mut self, shares: &mut LedgerShares, tag: Tag)
        requires of { shares.old.ledgers ≡ self.old.line.ledgers }
        requires part { 0 < shares.old.parts }
        requires stamped { All (λ entry. entry.tag.stamp ≡ tag.stamp)
            (last_entries self.old.held.logged.pending self.old.held.logged.log) }
        requires later { self.old.held.logged.stamp < tag.stamp }
        ensures settled { self.new.held.logged ≡ settled tag.stamp self.old.held.logged }
        ensures marks { self.new.marks ≡ self.old.marks
            ++ record { tag = tag; len = length self.old.held.logged.log } ∷ [] }
        ensures line { self.new.line ≡ self.old.line }
        ensures ledgers { shares.new.ledgers ≡ shares.old.ledgers }
        ensures amount { shares.new.amount ≡ shares.old.amount + self.old.held.logged.pending }
        ensures made { shares.new.made ≡ shares.old.made + 1 }
        ensures parts { shares.new.parts ≡ shares.old.parts }
    {
        self.entries
            .add(&mut shares.entries, self.chan.pending() as u64);
        self.made.add(&mut shares.marks, 1);
        self.chan.settle(tag.stamp);
        self.log.grow::<Chan<K>, ChanLog>(&self.chan);
        let len = self.chan.log_len() as u64;
        self.marks.push(&Mark { tag, len });
    }

    /// Returns a token of what the log is, in which nothing may be left to undo. Does nothing at run time.
    pub fn seen(&mut self) -> ListPrefix<Entry>
        requires { self.old.held.logged.pending ≡ 0 }
        ensures same { self.new ≡ self.old }
        ensures name { result.name ≡ self.old.line.lists.log }
        ensures log { result.log ≡ self.old.held.logged.log }
    {
        self.log.seen()
    }

    /// Shows that the log, in which nothing may be left to undo, begins with what was seen of it. Does nothing at run
    /// time.
    pub fn show_past(&mut self, seen: &ListPrefix<Entry>)
        requires name { seen.now.name ≡ self.old.line.lists.log }
        requires clean { self.old.held.logged.pending ≡ 0 }
        ensures same { self.new ≡ self.old }
        ensures since { IsPrefix seen.now.log self.old.held.logged.log }
    {
        self.log.show(seen);
    }

    /// Returns a token of the marks. Does nothing at run time.
    pub fn seen_marks(&mut self) -> ListPrefix<Mark>
        ensures same { self.new ≡ self.old }
        ensures name { result.name ≡ self.old.line.lists.marks }
        ensures log { result.log ≡ self.old.marks }
    {
        self.marks.seen()
    }

    /// Shows that the marks begin with what was seen of them. Does nothing at run time.
    pub fn show_marks(&mut self, seen: &ListPrefix<Mark>)
        requires name { seen.now.name ≡ self.old.line.lists.marks }
        ensures same { self.new ≡ self.old }
        ensures since { IsPrefix seen.now.log self.old.marks }
    {
        self.marks.show(seen);
    }

    /// Returns shares of the line's ledgers without a part, which count nothing. Does nothing at run time.
    pub fn empty_shares(&mut self) -> LedgerShares
        ensures same { self.new ≡ self.old }
        ensures ledgers { result.ledgers ≡ self.old.line.ledgers }
        ensures none { (result.parts ≡ 0) × (result.amount ≡ 0) × (result.made ≡ 0) }
    {
        self.none.empty()
    }

    /// Shows that the shares of all seats count the whole log, in which nothing may be left to undo, and all marks.
    /// Does nothing at run time.
    pub fn show_whole(&mut self, shares: &mut LedgerShares)
        requires of { shares.old.ledgers ≡ self.old.line.ledgers }
        requires parts { shares.old.parts ≡ self.old.line.ledgers.seats }
        requires clean { self.old.held.logged.pending ≡ 0 }
        ensures whole { length self.old.held.logged.log ≡ shares.old.amount }
        ensures all { length self.old.marks ≡ shares.old.made }
        ensures shares { shares.new ≡ shares.old }
        ensures same { self.new ≡ self.old }
    {
        self.entries.show_bound(&mut shares.entries);
        self.made.show_bound(&mut shares.marks);
    }
}

impl LineChan<FullLog> {
    /// Returns the whole log of the channel.
    pub fn into_log(self) -> Vec<Entry>
        ensures { result.items ≡ self.held.logged.log }
    {
        self.chan.into_log()
    }
}
