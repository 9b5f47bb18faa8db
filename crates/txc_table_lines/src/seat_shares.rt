// What a seat has of the lines of a table.
ghost use Rattle.std.specs.Prelude.{◌≡◌, ◌≤◌, ◌<◌, ◌++◌, ◌∷◌, [], ℕ, length, IfOk, IfErr, OnErr, OnOk};
ghost use mathlib.Core.List.{IsPrefix};
ghost use Rattle.txc_table_line.specs.Account.{IsSnapshotOf};
ghost use Rattle.txc_table_lines.specs.Lines.{AreValidShares, OnlyGrew, line_ids, share_at};

use crate::lines::LockOrder;
use std::alloc::{AllocError, Global};
use std::marker::Model;
use std::sync::Wait;
use txc_base::Stop;
use txc_chan::Log;
use txc_table_line::{LineGuard, SeatShare, SnapshotKind};

/// What a seat has of each line of a table. In a contract it is the list of it.
#[derive(Drop)]
pub struct SeatShares<K: Log> {
    pub(crate) shares: Vec<SeatShare<K>>,
}

impl<K: Log> Model for SeatShares<K> {
    ghost use Rattle.std.specs.Prelude.{List};
    ghost use Rattle.txc_table_line.specs.SeatShare.{SeatShareView};
    ghost use Rattle.txc_table_lines.specs.Lines.{AreValidShares};

    ghost Value = { List SeatShareView };

    ghost view = { λ all. all.shares.items };

    ghost invariant = { λ all. AreValidShares all.shares.items };
}

impl<K: Log> SeatShares<K> {
    /// Makes what a seat has of no line.
    pub(crate) fn new(alloc: Global) -> SeatShares<K>
        ensures { result ≡ [] }
    {
        SeatShares {
            shares: Vec::new(alloc),
        }
    }

    /// Adds what the seat has of one more line. Returns `AllocError` if an allocation fails.
    pub(crate) fn add(&mut self, share: SeatShare<K>) -> Result<(), AllocError>
        ensures { OnOk result (self.new ≡ self.old ++ share ∷ []) }
    {
        share.show();
        self.shares.push(share)?;
        Ok(())
    }

    /// Shows what is true of every share. Does nothing at run time.
    pub fn show(&self)
        ensures { AreValidShares self.now }
    {
        // Only for the proof: the read of a field shows the invariant of the type.
        let _ = &self.shares;
    }

    /// Compares what two seats have seen of a channel's log, and shows that the longer begins with the shorter. Does
    /// nothing at run time.
    pub fn show_order(&self, other: &SeatShares<K>, chan: u16)
        requires of { line_ids other.now ≡ line_ids self.now }
        requires there { chan < length self.now }
        ensures { length (share_at self.now chan).log ≤ length (share_at other.now chan).log
            → IsPrefix (share_at self.now chan).log (share_at other.now chan).log }
    {
        let chan = usize::from(chan);
        self.shares[chan].show_order(&other.shares[chan]);
    }

    /// Returns a snapshot of the channel of a locked line, in which nothing may be left to undo. The seat has then seen
    /// the log of that channel. Returns `NoMemory` if an allocation fails, and no other error; all is then unchanged.
    fn take_snapshot_of<T: SnapshotKind<K>>(
        &mut self,
        line: &mut LineGuard<'_, K>,
        chan: u16,
    ) -> Result<T::Output, Stop>
        requires there { chan < length self.old }
        requires line { line.old.line ≡ (share_at self.old chan).line }
        requires clean { line.old.held.logged.pending ≡ 0 }
        ensures ok { IfOk result
            (IsSnapshotOf T.snapshot_of (share_at self.old chan).line.decl (share_at self.old chan).amount
            (share_at self.new chan).log) }
        ensures grew { OnlyGrew self.old self.new }
        ensures err { IfErr result (λ stop. stop ≡ Stop.NoMemory) }
        ensures rest { (n : ℕ) → ((share_at self.new n).line ≡ (share_at self.old n).line)
            × ((share_at self.new n).amount ≡ (share_at self.old n).amount)
            × ((share_at self.new n).made ≡ (share_at self.old n).made)
            × ((share_at self.new n).marks ≡ (share_at self.old n).marks) }
        ensures lines { line_ids self.new ≡ line_ids self.old }
        ensures unchanged { OnErr result (self.new ≡ self.old) }
    {
        let share = &mut self.shares[usize::from(chan)];
        let snapshot = line.take_snapshot::<T>(share);
        share.show();
        snapshot
    }

    /// Locks a line and returns a snapshot of its channel. The seat has then seen the log of that channel, and what it
    /// has of the other lines is unchanged. Returns `NoMemory` if an allocation fails, and no other error; all is then
    /// unchanged. It blocks while another thread has the lock.
    pub fn take_snapshot<T: SnapshotKind<K>, R: Wait>(
        &mut self,
        rt: &R,
        mut order: LockOrder<'_, K>,
        chan: u16,
    ) -> Result<T::Output, Stop>
        requires of { line_ids self.old ≡ order.lines }
        requires none { order.lowest ≡ 0 }
        requires there { chan < length order.lines }
        ensures ok { IfOk result
            (IsSnapshotOf T.snapshot_of (share_at self.old chan).line.decl (share_at self.old chan).amount
            (share_at self.new chan).log) }
        ensures grew { OnlyGrew self.old self.new }
        ensures err { IfErr result (λ stop. stop ≡ Stop.NoMemory) }
        ensures rest { (n : ℕ) → ((share_at self.new n).line ≡ (share_at self.old n).line)
            × ((share_at self.new n).amount ≡ (share_at self.old n).amount)
            × ((share_at self.new n).made ≡ (share_at self.old n).made)
            × ((share_at self.new n).marks ≡ (share_at self.old n).marks) }
        ensures lines { line_ids self.new ≡ line_ids self.old }
        ensures unchanged { OnErr result (self.new ≡ self.old) }
    {
        let mut line = order.take_line(rt, chan, 0, self);
        self.take_snapshot_of::<T>(&mut line, chan)
    }
}
