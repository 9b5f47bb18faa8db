// The lines of a table, all locked.
ghost use Rattle.std.specs.Prelude.{◌≡◌, ◌≢◌, ◌<◌, ◌≤◌, ℕ, length, slice_set, Contains, IfErr, IfNone, IfOk, IfSome};
ghost use Rattle.txc_txn_check.specs.Steps.{Fits};
ghost use Rattle.txc_table_line.specs.Marks.{AreMarks};
ghost use Rattle.txc_txn.specs.Maps.{kinds_of};
ghost use Rattle.txc_txn.specs.Plain.{chan_in};
ghost use Rattle.txc_txn.specs.Transaction.{Again, Aborted, Kept as Keeps, State, transaction};
ghost use Rattle.txc_table_lines.specs.Lines.{line_ids, share_at};
ghost use Rattle.txc_table_lines.specs.Locked.{AllMarked, AreClean, IsLineSeen, channel_at, helds_of, lines_of};
ghost use Rattle.txc_table_lines.specs.Locked.{line_marks_of};

use crate::lines::Lines;
use crate::lock_buffer::LockBuffer;
use crate::seat_shares::SeatShares;
use std::marker::Model;
use std::sync::Wait;
use txc_base::{Cause, Stop, Tag};
use txc_chan::Log;
use txc_table_line::{LineLock, LockedLine};
use txc_txn::{Checked, Marks, Ran, Receipt, mark_all, run_pending, undo_all};

/// The lines of a table, all locked until this is unlocked or dropped. In a contract it is the list of their channels.
#[derive(Drop)]
pub struct LockedLines<K: Log> {
    pub(crate) lines: Vec<Option<LockedLine<K>>>,
    // Empty: the memory that the locks come back to.
    pub(crate) locks: Vec<LineLock<K>>,
}

impl<K: Log> Model for LockedLines<K> {
    ghost use Rattle.std.specs.Prelude.{◌≡◌, ◌≤◌, [], All, List, length, map, vec_capacity};
    ghost use Rattle.txc_table_line.specs.LineChan.{LineChanView};
    ghost use Rattle.txc_table_lines.specs.Guards.{channel_in};
    ghost use Rattle.txc_table_lines.specs.Locked.{IsLineThere};

    ghost Value = { List LineChanView };

    ghost view = { λ all. map channel_in all.lines.items };

    ghost invariant = { λ all. All IsLineThere all.lines.items × (all.locks.items ≡ [])
        × (length all.lines.items ≤ vec_capacity all.locks) };
}

impl<K: Log> Lines<K> {
    /// Locks all lines, and undoes what was not committed. A lock whose guard was never dropped blocks for ever.
    pub fn lock_all<R: Wait>(self, rt: &R, room: LockBuffer<K>) -> LockedLines<K>
        requires room { length self ≤ room }
        ensures lines { lines_of result ≡ self }
        ensures clean { AreClean (helds_of result) }
    {
        let mut locks = self.into_locks();
        let LockBuffer { mut lines } = room;
        locks.reverse();
        while let Some(lock) = locks.pop() {
            lines.push_reserved(Some(LockedLine::new(rt, lock)));
        }
        LockedLines { lines, locks }
    }
}

impl<K: Log> LockedLines<K> {
    /// Unlocks all lines, and returns them with the room for their locks.
    pub fn unlock(self) -> (Lines<K>, LockBuffer<K>)
        ensures lines { result.0 ≡ lines_of self }
        ensures room { length self ≤ result.1 }
    {
        let LockedLines {
            mut lines,
            mut locks,
        } = self;
        lines.reverse();
        while let Some(line) = lines.pop() {
            match line {
                Some(line) => locks.push_reserved(line.into_lock()),
                None => unreachable!(),
            }
        }
        (Lines::new(locks), LockBuffer { lines })
    }

    /// Returns how many lines there are.
    pub fn len(&self) -> usize
        ensures value { result ≡ length self.now }
    {
        self.lines.len()
    }

    /// Shows that the marks of one of the channels are those of the channel. Does nothing at run time.
    fn show_marks_at(&mut self, at: usize)
        requires { at < length self.old }
        ensures marks { AreMarks (channel_at self.old at).held.logged (channel_at self.old at).marks }
        ensures same { self.new ≡ self.old }
    {
        match &mut self.lines.as_mut_slice()[at] {
            Some(line) => line.show(),
            None => unreachable!(),
        }
    }

    /// Shows whose marks these are. Does nothing at run time.
    pub fn show_marks(&mut self)
        ensures marks { AllMarked (helds_of self.old) (line_marks_of self.old) }
        ensures same { self.new ≡ self.old }
    {
        for at in 0..self.len() {
            self.show_marks_at(at);
        }
    }

    /// Shows for one channel what `show_known` shows for all channels. Does nothing at run time.
    fn show_known_at(&mut self, at: usize, shares: &mut SeatShares<K>)
        requires of { line_ids shares.old ≡ lines_of self.old }
        requires there { at < length self.old }
        requires clean { AreClean (helds_of self.old) }
        ensures seen { IsLineSeen (share_at shares.old at) (channel_at self.old at) }
        ensures shares { shares.new ≡ shares.old }
        ensures same { self.new ≡ self.old }
    {
        let share = &mut shares.shares[at];
        share.show();
        match &mut self.lines.as_mut_slice()[at] {
            Some(line) => line.show_known(share),
            None => unreachable!(),
        }
    }

    /// Shows that the channels, in which nothing may be left to undo, are as declared and true to their logs, which
    /// begin with what a seat has seen of them and have at least the entries that the seat has made; the marks begin
    /// with what the seat has seen of them. Does nothing at run time.
    pub fn show_known(&mut self, shares: &mut SeatShares<K>)
        requires of { line_ids shares.old ≡ lines_of self.old }
        requires clean { AreClean (helds_of self.old) }
        ensures seen { (n : ℕ) → n < length self.old → IsLineSeen (share_at shares.old n) (channel_at self.old n) }
        ensures shares { shares.new ≡ shares.old }
        ensures same { self.new ≡ self.old }
    {
        for at in 0..self.len() {
            self.show_known_at(at, shares);
        }
    }

    /// Tries a transaction on the channels without committing it. Returns the cause for which it must be retried, or
    /// `None` if it would commit; an error is that of `run_pending`. Nothing may be left to undo in the channels. They
    /// are unchanged afterwards, with their logs and stamps. It blocks only if the handle permits it, on a broadcast
    /// channel.
    pub fn cause_to_retry<R: Wait>(
        &mut self,
        rt: &R,
        recycled: Receipt,
        tag: Tag,
        checked: &Checked,
    ) -> Result<Option<Cause>, Stop>
        requires fits { Fits (kinds_of (chan_in (helds_of self.old))) checked.now.steps }
        requires there { (n : ℕ) → Contains checked.now.declared n → n < length self.old }
        requires clean { AreClean (helds_of self.old) }
        ensures clean { AreClean (helds_of self.new) }
        ensures again { IfOk result (λ found. IfSome found (λ cause. transaction (chan_in (helds_of self.old)) tag
            checked.now.declared checked.now.steps ≡ Again cause)) }
        ensures kept { IfOk result (λ found. IfNone found ((state : State) × (transaction (chan_in (helds_of self.old))
            tag checked.now.declared checked.now.steps ≡ Keeps state))) }
        ensures stopped { IfErr result (λ stop. stop ≢ Stop.NoMemory → transaction (chan_in (helds_of self.old)) tag
            checked.now.declared checked.now.steps ≡ Aborted stop) }
        ensures same { chan_in (helds_of self.new) ≡ chan_in (helds_of self.old) }
        ensures lines { lines_of self.new ≡ lines_of self.old }
    {
        checked.show();
        let mut marks = Marks::new();
        mark_all(self, checked.declared(), &mut marks);
        match run_pending(rt, recycled, self, tag, checked)? {
            Ran::Kept(receipt) => {
                drop(receipt);
                undo_all(self, checked.declared(), marks.as_slice());
                Ok(None)
            }
            Ran::Retry(cause) => Ok(Some(cause)),
        }
    }
}
