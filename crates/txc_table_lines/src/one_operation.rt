// A transaction of one operation, on its line.
ghost use Rattle.std.specs.Prelude.{◌≡◌, ◌≢◌, ◌<◌, None, true, length, slice_set, IfNone, IfOk, IfSome, OnErr};
ghost use Rattle.txc_base.specs.declared.cause.Cause.{Cause as Causes};
ghost use Rattle.txc_base.specs.Kinds.{supports};
ghost use Rattle.txc_base.specs.Op.{chan_of};
ghost use Rattle.txc_base.specs.Operation.{Waits, operate};
ghost use Rattle.txc_chan.specs.Committed.{HasNoAct, IsCommittedOp, is_read_or_write};
ghost use Rattle.txc_table_line.specs.Commit.{CountsOne};
ghost use Rattle.txc_table_lines.specs.Lines.{line_ids, share_at};
ghost use Rattle.txc_table_lines.specs.OneOperation.{IsCommittedOne, IsNotImmediate, MustRetryOne};

use crate::lines::LockOrder;
use crate::seat_shares::SeatShares;
use std::alloc::AllocError;
use std::sync::Wait;
use txc_base::{Act, Cause, Op, Tag};
use txc_chan::Log;
use txc_table_line::LineGuard;
use txc_txn::{Deed, Receipt, tag_after};

/// How an attempt to commit a transaction of one operation at once ended.
#[derive(Debug, Clone, Copy, PartialEq, Eq)]
pub enum AtOnce {
    /// The transaction committed.
    Committed,
    /// The transaction must be retried, for this cause.
    MustRetry(Cause),
    /// Nothing was done.
    NotDone,
}

/// Returns how a transaction ends whose operation has no act. It never blocks and does not allocate.
#[inline(always)]
pub(crate) fn without_act<K: Log>(line: &mut LineGuard<'_, K>, op: &Op) -> AtOnce
    requires supports { supports line.old.held.logged.decl.kind op.now ≡ true }
    ensures waits { (seat : _) (cause : Causes) → result ≡ AtOnce.MustRetry cause
        → operate line.old.held.logged.channel seat None op.now ≡ Waits cause }
    ensures left { result ≢ AtOnce.Committed }
    ensures same { line.new ≡ line.old }
{
    match line.cause_to_wait(op) {
        Some(cause) => AtOnce::MustRetry(cause),
        None => AtOnce::NotDone,
    }
}

impl<K: Log> SeatShares<K> {
    /// Commits a write or a read at once on its line, as `LockedLine::commit` does, and counts it in the seat's share.
    #[inline(always)]
    pub(crate) fn commit_op<R: Wait>(
        &mut self,
        rt: &R,
        line: &mut LineGuard<'_, K>,
        tag: Tag,
        op: &Op,
    ) -> Result<Option<Act>, AllocError>
        requires there { chan_of op.now < length self.old }
        requires line { line.old.line ≡ (share_at self.old (chan_of op.now)).line }
        requires clean { line.old.held.logged.pending ≡ 0 }
        requires later { line.old.held.logged.stamp < tag.stamp }
        requires supports { supports line.old.held.logged.decl.kind op.now ≡ true }
        ensures done { IfOk result (λ found. IfSome found (λ act.
            IsCommittedOp tag op.now act line.old.held.logged line.new.held.logged)) }
        ensures none { is_read_or_write op.now ≡ true → IfOk result (λ found. IfNone found
            (HasNoAct (operate line.old.held.logged.channel tag.seat None op.now))) }
        ensures counts { let n = chan_of op.now in IfOk result (λ found. IfSome found (λ act.
            CountsOne line.old.held.logged line.new.held.logged tag (share_at self.old n) (share_at self.new n))) }
        ensures others { let n = chan_of op.now in self.new ≡ slice_set self.old n (share_at self.new n) }
        ensures lines { line_ids self.new ≡ line_ids self.old }
        ensures left { IfOk result (λ found. IfNone found
            ((line.new.held.logged ≡ line.old.held.logged) × (self.new ≡ self.old))) }
        ensures unchanged { OnErr result (self.new ≡ self.old) }
    {
        let share = &mut self.shares[usize::from(op.chan())];
        let found = line.commit(rt, share, tag, op);
        share.show();
        found
    }

    /// Commits a transaction of one operation at once, if that is a write or a read and has an act. The receipt has the
    /// tag to run with. The kind of the channel must have the operation. Returns `Committed` if the transaction
    /// committed: the receipt is then the transaction's, which counts in the seat's share of the line, and the seat has
    /// seen the log. Returns `MustRetry` if the operation has to wait, and `NotDone` if it is another one, has no act
    /// or writes the body that was read last, or if a number is used up. Fails only if an allocation fails. Unless it
    /// returns `Committed`, nothing is changed except the replies and the acts of the receipt, which are then
    /// arbitrary. It allocates. It blocks while another thread has the lock of the line, and, if the handle permits it,
    /// on a broadcast channel.
    pub fn commit_one<R: Wait>(
        &mut self,
        rt: &R,
        mut order: LockOrder<'_, K>,
        op: &Op,
        receipt: &mut Receipt,
    ) -> Result<AtOnce, AllocError>
        requires of { line_ids self.old ≡ order.lines }
        requires none { order.lowest ≡ 0 }
        requires there { chan_of op.now < length order.lines }
        requires supports { supports (share_at self.old (chan_of op.now)).line.decl.kind op.now ≡ true }
        ensures done { IfOk result (λ is. is ≡ AtOnce.Committed
            → IsCommittedOne receipt.old.tag op.now self.old self.new receipt.new) }
        ensures retry { (cause : Causes) → IfOk result (λ is. is ≡ AtOnce.MustRetry cause
            → MustRetryOne receipt.old.tag op.now self.old cause) }
        ensures once { IfOk result (λ is. is ≢ AtOnce.Committed → IsNotImmediate receipt.old.tag op.now self.old) }
        ensures left { IfOk result (λ is. is ≢ AtOnce.Committed
            → (self.new ≡ self.old) × (receipt.new.tag ≡ receipt.old.tag)) }
        ensures lines { line_ids self.new ≡ line_ids self.old }
        ensures unchanged { OnErr result (self.new ≡ self.old) }
    {
        receipt.make_single()?;
        self.show();
        let chan = op.chan();
        let mut guard = order.take_line(rt, chan, 0, self);
        let (stamp, place) = guard.stamp_and_len();
        let most = receipt.tag.stamp.max(stamp);
        let Some(tag) = tag_after(receipt.tag, most) else {
            return Ok(AtOnce::NotDone);
        };
        let Some(act) = self.commit_op(rt, &mut guard, tag, op)? else {
            return Ok(without_act(&mut guard, op));
        };
        drop(guard);
        receipt.set_single(tag, Deed { chan, place, act });
        Ok(AtOnce::Committed)
    }
}
