// One try of a transaction.
ghost use Rattle.std.specs.Prelude.{◌≡◌, ◌≢◌, ◌%◌, [], ◌∷◌, IfErr, IfNone, IfOk, IfSome, OnErr};
ghost use Rattle.std.specs.Prelude.{slice_get};
ghost use Rattle.std.specs.Int.{bit_at};
ghost use Rattle.txc_base.specs.declared.cause.Cause.{Cause as Causes};
ghost use Rattle.txc_base.specs.declared.limits.TheConstants.{MAX_SEATS_OF_LARGE};
ghost use Rattle.txc_base.specs.declared.op.Op.{Op as Ops};
ghost use Rattle.txc_base.specs.Op.{chan_of};
ghost use Rattle.txc_txn_check.specs.declared.step.Step.TheVariants.{Do};
ghost use Rattle.txc_txn_check.specs.Steps.{Fits};
ghost use Rattle.txc_txn.specs.declared.ran.Ran.TheVariants.{Kept as RanKept};
ghost use Rattle.txc_txn.specs.Maps.{Map};
ghost use Rattle.txc_txn.specs.Run.{IfKept};
ghost use Rattle.txc_txn.specs.Transaction.{Again, Aborted, kept_tag, transaction};
ghost use Rattle.txc_table_lines.specs.Committed.{IfRetry};
ghost use Rattle.txc_table_lines.specs.Lines.{line_ids};
ghost use Rattle.txc_table_lines.specs.OneOperation.{AreKnown, IsNotImmediate};
ghost use Rattle.txc_table.specs.Attempt.{IsKeptWith, ran_of};
ghost use Rattle.txc_table.specs.Gate.{IfGiven};
ghost use Rattle.txc_table.specs.Table.{decls_of};
ghost use Rattle.txc_table.specs.Outcome.{Answers, IsAttempted};

use super::Table;
use crate::gate::NoGate;
use crate::line_access::LineAccess;
use crate::seat::Seat;
use crate::tried::Tried;
use std::alloc::{AllocError, Global};
use std::mem;
use std::sync::Wait;
use txc_base::{Cause, Stop};
use txc_chan::Log;
use txc_table_interests::changed_by;
use txc_table_lines::{AtOnce, Gate, Guards, LockOrder, LockPermit, SeatShares};
use txc_table_seat::Receipts;
use txc_table_wait::Seats;
use txc_txn::{Checked, Ran, Receipt};
use txc_txn_check::Step;

mod moving;

/// What a call was given: the transaction, and the allocator of its receipt.
#[derive(Drop)]
struct Call<'a> {
    alloc: Global,
    checked: &'a Checked,
}

impl<K: Log> Table<K> {
    /// Commits a transaction of one operation at once, on its line alone, if it can. The receipt has the tag of the
    /// try. Returns `Committed` if the transaction committed: the receipt is then the transaction's. Returns
    /// `MustRetry` if the transaction must be retried. Fails only if an allocation fails. Unless it returns
    /// `Committed`, nothing is changed except the replies and the acts of the receipt, which are then arbitrary.
    fn commit_at_once<R: Wait>(
        &self,
        rt: &R,
        call: &Call<'_>,
        shares: &mut SeatShares<K>,
        permit: &mut LockPermit,
        receipt: &mut Receipt,
    ) -> Result<AtOnce, AllocError>
        requires of { line_ids shares.old ≡ self.now.lines.all }
        requires fits { Fits (slice_get self.now.kinds) call.now.checked.now.steps }
        ensures outcome { let plan = call.now.checked.now in IfOk result (λ is. is ≡ AtOnce.Committed
            → (m : Map) × AreKnown shares.old m × Answers (kept_tag m receipt.old.tag plan.declared)
            (transaction m receipt.old.tag plan.declared plan.steps) (RanKept receipt.new)) }
        ensures retry { let plan = call.now.checked.now in (cause : Causes) → IfOk result (λ is.
            is ≡ AtOnce.MustRetry cause → (m : Map) × AreKnown shares.old m
            × (transaction m receipt.old.tag plan.declared plan.steps ≡ Again cause)) }
        ensures kept { IfOk result (λ is. is ≡ AtOnce.Committed
            → IsKeptWith receipt.old.tag call.now.checked.now shares.old shares.new receipt.new) }
        ensures once { let plan = call.now.checked.now in (op : Ops) → plan.steps ≡ Do op ∷ []
            → plan.declared ≡ chan_of op ∷ []
            → IfOk result (λ is. is ≢ AtOnce.Committed → IsNotImmediate receipt.old.tag op shares.old) }
        ensures left { IfOk result (λ is. is ≢ AtOnce.Committed
            → (shares.new ≡ shares.old) × (receipt.new.tag ≡ receipt.old.tag)) }
        ensures lines { line_ids shares.new ≡ line_ids shares.old }
        ensures same { OnErr result (shares.new ≡ shares.old) }
    {
        let checked = call.checked;
        let Some(op) = checked.only_operation() else {
            return Ok(AtOnce::NotDone);
        };
        checked.show_fits(self.kinds.as_slice());
        checked.show();
        shares.show();
        let order = LockOrder::new(&self.lines, permit);
        shares.commit_one(rt, order, op, receipt)
    }

    /// Runs a transaction on its channels: at once if it can and there is no gate, and else as `run_held` does. The
    /// given receipt has the tag to run with: the seat's next serial and its last stamp. Returns `None` if the
    /// transaction committed, and its receipt is then in place of the given one. Returns the cause if it must be
    /// retried.
    fn run<R: Wait, G: Gate>(
        &self,
        rt: &R,
        call: &Call<'_>,
        access: &mut LineAccess<K>,
        gate: Option<&mut G>,
        receipt: &mut Receipt,
    ) -> Result<Option<Cause>, Stop>
        requires of { line_ids access.old.shares ≡ self.now.lines.all }
        requires fits { Fits (slice_get self.now.kinds) call.now.checked.now.steps }
        ensures outcome { let plan = call.now.checked.now in IfOk result (λ ended. (m : Map)
            × AreKnown access.old.shares m × Answers (kept_tag m receipt.old.tag plan.declared)
            (transaction m receipt.old.tag plan.declared plan.steps) (ran_of ended receipt.new)) }
        ensures stopped { let plan = call.now.checked.now in IfErr result (λ stop. stop ≢ Stop.NoMemory
            → (m : Map) × AreKnown access.old.shares m
            × (transaction m receipt.old.tag plan.declared plan.steps ≡ Aborted stop)) }
        ensures kept { IfOk result (λ ended. IfNone ended
            (IsKeptWith receipt.old.tag call.now.checked.now access.old.shares access.new.shares receipt.new)) }
        ensures retried { IfOk result (λ ended. IfSome ended (λ cause. access.new.shares ≡ access.old.shares)) }
        ensures lines { line_ids access.new.shares ≡ line_ids access.old.shares }
        ensures passed { IfOk result (λ ended. IfGiven G.HasPassed gate.entry gate.exit) }
        ensures same { OnErr result (access.new.shares ≡ access.old.shares) }
    {
        if let Some(gate) = gate {
            return self.run_in_place(rt, call, access, gate, receipt);
        }
        let LineAccess { shares, permit } = access;
        match self.commit_at_once(rt, call, shares, permit, receipt)? {
            AtOnce::Committed => return Ok(None),
            AtOnce::MustRetry(cause) => return Ok(Some(cause)),
            AtOnce::NotDone => {}
        }
        match self.commit_move_at_once(rt, call, shares, permit, receipt)? {
            AtOnce::Committed => Ok(None),
            AtOnce::MustRetry(cause) => Ok(Some(cause)),
            AtOnce::NotDone => self.run_in_place(rt, call, access, &mut NoGate, receipt),
        }
    }

    /// Runs a transaction as `run_held` does, with its receipt in place of the given one. Takes and returns the same as
    /// `run`.
    #[inline(never)]
    fn run_in_place<R: Wait, G: Gate>(
        &self,
        rt: &R,
        call: &Call<'_>,
        access: &mut LineAccess<K>,
        gate: &mut G,
        receipt: &mut Receipt,
    ) -> Result<Option<Cause>, Stop>
        requires of { line_ids access.old.shares ≡ self.now.lines.all }
        requires fits { Fits (slice_get self.now.kinds) call.now.checked.now.steps }
        ensures outcome { let plan = call.now.checked.now in IfOk result (λ ended. (m : Map)
            × AreKnown access.old.shares m × Answers (kept_tag m receipt.old.tag plan.declared)
            (transaction m receipt.old.tag plan.declared plan.steps) (ran_of ended receipt.new)) }
        ensures stopped { let plan = call.now.checked.now in IfErr result (λ stop. stop ≢ Stop.NoMemory
            → (m : Map) × AreKnown access.old.shares m
            × (transaction m receipt.old.tag plan.declared plan.steps ≡ Aborted stop)) }
        ensures kept { IfOk result (λ ended. IfNone ended
            (IsKeptWith receipt.old.tag call.now.checked.now access.old.shares access.new.shares receipt.new)) }
        ensures retried { IfOk result (λ ended. IfSome ended (λ cause. access.new.shares ≡ access.old.shares)) }
        ensures lines { line_ids access.new.shares ≡ line_ids access.old.shares }
        ensures passed { G.HasPassed gate.old gate.new }
        ensures same { OnErr result (access.new.shares ≡ access.old.shares) }
    {
        let recycled = mem::replace(receipt, Receipt::blank(call.alloc));
        match self.run_held(rt, recycled, call, access, gate)? {
            Ran::Kept(kept) => {
                *receipt = kept;
                Ok(None)
            }
            Ran::Retry(cause) => Ok(Some(cause)),
        }
    }

    /// Runs a transaction on its channels while their locks are held, after the gate was called once. A commit counts in
    /// the shares, and its receipt reuses the memory of the recycled one.
    fn run_held<R: Wait, G: Gate>(
        &self,
        rt: &R,
        recycled: Receipt,
        call: &Call<'_>,
        access: &mut LineAccess<K>,
        gate: &mut G,
    ) -> Result<Ran, Stop>
        requires of { line_ids access.old.shares ≡ self.now.lines.all }
        requires fits { Fits (slice_get self.now.kinds) call.now.checked.now.steps }
        ensures outcome { let plan = call.now.checked.now in IfOk result (λ ran. (m : Map)
            × AreKnown access.old.shares m × Answers (kept_tag m recycled.tag plan.declared)
            (transaction m recycled.tag plan.declared plan.steps) ran) }
        ensures stopped { let plan = call.now.checked.now in IfErr result (λ stop. stop ≢ Stop.NoMemory
            → (m : Map) × AreKnown access.old.shares m
            × (transaction m recycled.tag plan.declared plan.steps ≡ Aborted stop)) }
        ensures kept { IfOk result (λ ran. IfKept ran
            (IsKeptWith recycled.tag call.now.checked.now access.old.shares access.new.shares)) }
        ensures retried { IfOk result (λ ran. IfRetry ran (access.new.shares ≡ access.old.shares)) }
        ensures lines { line_ids access.new.shares ≡ line_ids access.old.shares }
        ensures passed { G.HasPassed gate.old gate.new }
        ensures same { OnErr result (access.new.shares ≡ access.old.shares) }
    {
        let checked = call.checked;
        let tag = recycled.tag;
        checked.show_fits(self.kinds.as_slice());
        checked.show();
        let LineAccess { shares, permit } = access;
        let order = LockOrder::new(&self.lines, permit);
        let mut guards = Guards::take(rt, order, checked.declared(), shares, gate);
        let ran = guards.commit(rt, recycled, tag, checked, shares);
        guards.release();
        ran
    }

    /// Tries a transaction once, like `attempt`, and calls the gate once, after the last lock is acquired and before
    /// the first operation. The locks are held meanwhile. If the allocation of the receipt fails, the gate is not
    /// called.
    pub fn attempt_through<S: Receipts, R: Wait, G: Gate>(
        &self,
        rt: &R,
        alloc: Global,
        seat: &mut Seat<K, S>,
        checked: &Checked,
        gate: &mut G,
    ) -> Result<Tried, Stop>
        requires of { seat.old.lines ≡ self.now.lines }
        requires fits { Fits (slice_get self.now.kinds) checked.now.steps }
        ensures outcome { IsAttempted (λ tried. tried) (decls_of self.now.lines) checked.now seat.old result seat.new }
        ensures lines { seat.new.lines ≡ seat.old.lines }
    {
        self.attempt_with(rt, alloc, seat, checked, Some(gate))
    }

    /// Tries a transaction once, and notifies the other seats that wait for what its commit changed. Calls the gate if
    /// there is one.
    pub(super) fn attempt_with<S: Receipts, R: Wait, G: Gate>(
        &self,
        rt: &R,
        alloc: Global,
        seat: &mut Seat<K, S>,
        checked: &Checked,
        gate: Option<&mut G>,
    ) -> Result<Tried, Stop>
        requires of { seat.old.lines ≡ self.now.lines }
        requires fits { Fits (slice_get self.now.kinds) checked.now.steps }
        ensures outcome { IsAttempted (λ tried. tried) (decls_of self.now.lines) checked.now seat.old result seat.new }
        ensures lines { seat.new.lines ≡ seat.old.lines }
    {
        let Seat {
            history,
            access,
            table_share: _,
            draft,
        } = seat;
        // The draft is blank or a receipt that is no longer read, so each try sets the tag.
        let receipt = &mut draft.receipt;
        receipt.tag = history.reserve()?;
        let call = Call { alloc, checked };
        match self.run(rt, &call, access, gate, receipt) {
            Ok(None) => {}
            Ok(Some(cause)) => return Ok(Tried::Retry(cause)),
            Err(stop) => return Err(stop),
        }
        let registered = self.take_registered_for(receipt);
        access.shares.show();
        history.show();
        let number = history.keep(alloc, checked, draft);
        self.wait_queue.notify(rt, registered);
        Ok(Tried::Kept(number))
    }

    /// Removes from the wait queue the seats that wait for what one of the acts of a committed transaction changed,
    /// except the seat that committed it.
    fn take_registered_for(&self, receipt: &Receipt) -> Seats
        ensures others { bit_at result.bits (receipt.now.tag.seat % MAX_SEATS_OF_LARGE) ≡ 0 }
    {
        let mut registered = Seats::none();
        for deed in receipt.acts.as_slice() {
            registered = registered.union(
                self.wait_queue
                    .take_registered(deed.chan, changed_by(&deed.act)),
            );
        }
        registered.without(receipt.tag.seat)
    }

    /// Tries a transaction once. Returns `Kept` with the number of its receipt in the seat if it commits, or `Retry`
    /// with its cause. The seat must be one of this table, and the transaction must fit its kinds. Returns the
    /// transaction's own stop, `Worn` if the seat or a channel can count no further, or `NoMemory` if allocation fails,
    /// which can come before anything else. After a retry or a stop the seat and the channels are unchanged. Blocks for
    /// the locks of the channels that it names, one after another in rising order. After it has released them, it
    /// blocks for the wait queue's lock if another seat waits for what one of its acts changed; that seat then tries
    /// again. Allocates.
    pub fn attempt<S: Receipts, R: Wait>(
        &self,
        rt: &R,
        alloc: Global,
        seat: &mut Seat<K, S>,
        checked: &Checked,
    ) -> Result<Tried, Stop>
        requires of { seat.old.lines ≡ self.now.lines }
        requires fits { Fits (slice_get self.now.kinds) checked.now.steps }
        ensures outcome { IsAttempted (λ tried. tried) (decls_of self.now.lines) checked.now seat.old result seat.new }
        ensures lines { seat.new.lines ≡ seat.old.lines }
    {
        self.attempt_with(rt, alloc, seat, checked, None::<&mut NoGate>)
    }
}
