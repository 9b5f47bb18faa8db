// The lines in a transaction.
ghost use Rattle.std.specs.Prelude.{◌≡◌, ◌≢◌, ◌<◌, ◌≤◌, ℕ, All, Contains, IfErr, IfOk, OnErr};
ghost use Rattle.std.specs.Prelude.{length, slice_index_or, slice_set};
ghost use Rattle.txc_txn_check.specs.Limits.{IsRising, max_declared};
ghost use Rattle.txc_txn_check.specs.Steps.{Fits};
ghost use Rattle.txc_table_line.specs.Known.{IsKnown};
ghost use Rattle.txc_txn.specs.InLog.{ReceiptIsInLog};
ghost use Rattle.txc_txn.specs.Maps.{kinds_of, settle_all};
ghost use Rattle.txc_txn.specs.Run.{IfKept, PlacesRise, RanSettled};
ghost use Rattle.txc_txn.specs.Transaction.{Aborted, kept_tag, transaction};
ghost use Rattle.txc_table_line.specs.LineChan.{no_channel};
ghost use Rattle.txc_table_lines.specs.Committed.{AreCommitted, AreSettled, HasNoneOutside, IfRetry, SettledAt};
ghost use Rattle.txc_table_lines.specs.Guards.{IsReady, ChangesAt, chans_of, first_place_of};
ghost use Rattle.txc_table_lines.specs.Lines.{AreSince, OnlyGrew, line_ids, share_at};

use crate::gate::{Gate, HeldLocks};
use crate::lines::LockOrder;
use crate::seat_shares::SeatShares;
use arrayvec::ArrayVec;
use std::marker::Model;
use std::snapshot::Snapshot;
use std::sync::Wait;
use txc_base::{Stop, Tag};
use txc_chan::Log;
use txc_table_line::LineGuard;
use txc_txn::{Checked, Ran, Receipt, run_pending};
use txc_txn_check::MAX_DECLARED;

/// How often a thread that takes several locks tries for one that is taken before it queues for it. If it slept, it
/// would keep the locks that it has from all others.
pub(crate) const TRIES: u32 = 42;

/// The lines that a transaction declares, which are locked until this is released or dropped. In a contract it is their
/// numbers and their channels, and what the seat has of all lines.
#[derive(Drop)]
pub struct Guards<'a, K: Log> {
    pub(crate) declared: &'a [u16],
    pub(crate) locked: ArrayVec<Option<LineGuard<'a, K>>, MAX_DECLARED>,
    known: Snapshot<SeatShares<K>>,
}

impl<'a, K: Log> Model for Guards<'a, K> {
    ghost use Rattle.std.specs.Prelude.{map};
    ghost use Rattle.txc_table_lines.specs.Guards.{AreLocked, GuardsView, channel_in};

    ghost Value = { GuardsView };

    ghost view = { λ guards. record {
      declared = guards.declared.now;
      channels = map channel_in guards.locked.items;
      known = guards.known.value;
    } };

    ghost invariant = { λ guards. AreLocked guards.known.value guards.declared.now guards.locked.items };
}

impl<'a, K: Log> Guards<'a, K> {
    /// Locks the declared lines, whose numbers must rise, one after another, and then calls the gate once. It blocks
    /// while another thread has one of the locks, and while the gate does.
    pub fn take<R: Wait, G: Gate>(
        rt: &R,
        mut order: LockOrder<'a, K>,
        declared: &'a [u16],
        shares: &mut SeatShares<K>,
        gate: &mut G,
    ) -> Guards<'a, K>
        requires of { line_ids shares.old ≡ order.lines }
        requires first { order.lowest ≡ 0 }
        requires there { All (λ n. n < length order.lines) declared.now }
        requires rising { IsRising declared.now }
        requires few { length declared.now ≤ max_declared }
        ensures declared { result.declared ≡ declared.now }
        ensures seat { result.known ≡ shares.old }
        ensures known { (n : ℕ) → n < length order.entry.lines
            → IsKnown (share_at shares.old n).line.decl (share_at shares.old n).amount (chans_of result n) }
        ensures since { AreSince shares.old (chans_of result) }
        ensures clean { (n : ℕ) → (chans_of result n).pending ≡ 0 }
        ensures passed { G.HasPassed gate.old gate.new }
        ensures same { shares.new ≡ shares.old }
    {
        let tries = if declared.len() > 1 { TRIES } else { 0 };
        let known = Snapshot::of(shares);
        let mut locked = ArrayVec::new();
        for number in declared {
            locked.push(Some(order.take_line(rt, *number, tries, shares)));
        }
        shares.show();
        let guards = Guards {
            declared,
            locked,
            known,
        };
        gate.pass(&HeldLocks::of(&guards));
        guards
    }

    /// Returns the place of a declared line among the declared ones.
    pub(crate) fn place(&self, number: u16) -> usize
        requires { Contains self.now.declared number }
        ensures place { result ≡ first_place_of number self.now.declared }
        ensures there { result < length self.now.declared }
        ensures number { slice_index_or self.now.declared result 0 ≡ number }
    {
        for at in 0..self.declared.len() {
            if self.declared[at] == number {
                return at;
            }
        }
        unreachable!()
    }

    /// Commits what can be undone in the line at this place among the declared ones, with the stamp of the tag, which
    /// must be later than the channel's, and counts it in the seat's share of the line, which has then seen the log.
    fn settle_line(&mut self, at: usize, shares: &mut SeatShares<K>, tag: Tag)
        requires of { line_ids shares.old ≡ line_ids self.old.known }
        requires there { at < length self.old.declared }
        requires ready { IsReady tag.stamp (slice_index_or self.old.channels at no_channel).held.logged }
        ensures settled { SettledAt tag at self.old shares.old self.new shares.new }
        ensures channels { ChangesAt at self.old self.new }
        ensures shares { let number = slice_index_or self.old.declared at 0 in
            shares.new ≡ slice_set shares.old number (share_at shares.new number) }
        ensures lines { line_ids shares.new ≡ line_ids shares.old }
    {
        let declared = self.declared;
        let number = usize::from(declared[at]);
        let share = &mut shares.shares[number];
        match &mut self.locked[at] {
            Some(guard) => guard.settle(share, tag),
            None => unreachable!(),
        }
        share.show();
    }

    /// Commits what can be undone in all declared lines, like `settle_line` in each.
    fn settle_all(&mut self, shares: &mut SeatShares<K>, tag: Tag)
        requires of { line_ids shares.old ≡ line_ids self.old.known }
        requires rising { IsRising self.old.declared }
        requires ready { (n : ℕ) → Contains self.old.declared n → IsReady tag.stamp (chans_of self.old n) }
        ensures settled { chans_of self.new ≡ settle_all (chans_of self.old) tag.stamp self.old.declared }
        ensures shares { (n : ℕ) → AreSettled self.old.declared tag (chans_of self.old) shares.old (chans_of self.new)
            shares.new n }
        ensures same { (self.new.declared ≡ self.old.declared) × (self.new.known ≡ self.old.known) }
        ensures lines { line_ids shares.new ≡ line_ids shares.old }
    {
        for at in 0..self.declared.len() {
            self.settle_line(at, shares, tag);
        }
    }

    /// Runs a transaction on the declared lines, and commits it unless it must be retried. Its acts count in the seat's
    /// shares, which have then seen the logs, and each declared line gets the receipt's stamp, even without an act. The
    /// receipt has the memory of the given one. Returns the receipt, or the cause to retry; an error is that of
    /// `run_pending`. After a retry or an error all is unchanged. It blocks only if the handle permits it, on a
    /// broadcast channel.
    pub fn commit<R: Wait>(
        &mut self,
        rt: &R,
        recycled: Receipt,
        tag: Tag,
        checked: &Checked,
        shares: &mut SeatShares<K>,
    ) -> Result<Ran, Stop>
        requires of { line_ids shares.old ≡ line_ids self.old.known }
        requires declared { self.old.declared ≡ checked.now.declared }
        requires fits { Fits (kinds_of (chans_of self.old)) checked.now.steps }
        requires clean { (n : ℕ) → (chans_of self.old n).pending ≡ 0 }
        requires since { AreSince shares.old (chans_of self.old) }
        ensures ran { let m = chans_of self.old in IfOk result (λ ran. RanSettled (kept_tag m tag checked.now.declared)
            checked.now.declared (transaction m tag checked.now.declared checked.now.steps) ran m (chans_of self.new)) }
        ensures committed { IfOk result (λ ran. IfKept ran (λ receipt. (n : ℕ) → AreCommitted checked.now.declared
            (chans_of self.old) (chans_of self.new) receipt shares.old shares.new n)) }
        ensures grew { IfOk result (λ ran. IfKept ran (λ receipt. OnlyGrew shares.old shares.new)) }
        ensures stand { IfOk result (λ ran. IfKept ran (ReceiptIsInLog (λ n. (share_at shares.new n).log))) }
        ensures inside { IfOk result (λ ran. IfKept ran (HasNoneOutside checked.now.declared)) }
        ensures rise { IfOk result (λ ran. IfKept ran PlacesRise) }
        ensures later { IfOk result (λ ran. IfKept ran (λ receipt. tag.stamp < receipt.tag.stamp)) }
        ensures lines { line_ids shares.new ≡ line_ids shares.old }
        ensures retried { IfOk result (λ ran. IfRetry ran (shares.new ≡ shares.old)) }
        ensures stopped { IfErr result (λ stop. stop ≢ Stop.NoMemory →
            transaction (chans_of self.old) tag checked.now.declared checked.now.steps ≡ Aborted stop) }
        ensures unchanged { OnErr result (shares.new ≡ shares.old) }
        ensures undone { OnErr result (chans_of self.new ≡ chans_of self.old) }
    {
        checked.show();
        match run_pending(rt, recycled, self, tag, checked)? {
            Ran::Kept(receipt) => {
                self.settle_all(shares, receipt.tag);
                Ok(Ran::Kept(receipt))
            }
            Ran::Retry(cause) => Ok(Ran::Retry(cause)),
        }
    }

    /// Unlocks the lines, the last one first: a thread that waits for the first finds the others free, and sleeps at
    /// none of them while it holds the first.
    pub fn release(self) {
        let Guards {
            declared: _,
            mut locked,
            known: _,
        } = self;
        while let Some(guard) = locked.pop() {
            drop(guard);
        }
    }
}
