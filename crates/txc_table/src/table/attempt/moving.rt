// One try of a transaction that moves an item, or that chooses between two moves.
ghost use Rattle.std.specs.Prelude.{◌≡◌, ◌≢◌, ℕ, [], ◌∷◌, true, slice_get, IfNone, IfOk, IfSome, OnErr};
ghost use Rattle.txc_base.specs.declared.cause.Cause.{Cause as Causes};
ghost use Rattle.txc_base.specs.declared.op.Op.TheVariants.{Read, Write};
ghost use Rattle.txc_base.specs.declared.source.Source.TheVariants.{Last};
ghost use Rattle.txc_txn_check.specs.declared.step.Step.TheVariants.{Do};
ghost use Rattle.txc_txn_check.specs.Steps.{Fits};
ghost use Rattle.txc_txn.specs.declared.ran.Ran.TheVariants.{Kept as RanKept};
ghost use Rattle.txc_txn.specs.Choice.{choice_steps};
ghost use Rattle.txc_txn.specs.Maps.{Map};
ghost use Rattle.txc_txn.specs.Transaction.{Again, kept_tag, transaction};
ghost use Rattle.txc_txn.specs.TwoOperations.{lower_first, move_steps};
ghost use Rattle.txc_table_lines.specs.Choice.{channels_of};
ghost use Rattle.txc_table_lines.specs.Lines.{line_ids};
ghost use Rattle.txc_table_lines.specs.OneOperation.{AreKnown};
ghost use Rattle.txc_table.specs.Attempt.{IsKeptWith};
ghost use Rattle.txc_table.specs.Outcome.{Answers};

use super::Call;
use crate::table::Table;
use std::alloc::AllocError;
use std::sync::Wait;
use txc_base::{List, Op, Source};
use txc_chan::Log;
use txc_table_lines::{AtOnce, Choice, LockOrder, LockPermit, Move, SeatShares};
use txc_txn::{Checked, Receipt};
use txc_txn_check::Step;

/// Returns the channel and the reader of a step that is a read.
fn read_in(step: &Step) -> Option<(u16, u16)>
    ensures some { IfSome result (λ read. step.now ≡ Do (Read read.0 read.1)) }
    ensures none { (chan reader : ℕ) → IfNone result (step.now ≢ Do (Read chan reader)) }
{
    match step {
        Step::Do(Op::Read { chan, reader }) => Some((*chan, *reader)),
        _ => None,
    }
}

/// Returns the channel of a step that writes the body that was read last.
fn write_in(step: &Step) -> Option<u16>
    ensures some { IfSome result (λ chan. step.now ≡ Do (Write chan Last)) }
    ensures none { (chan : ℕ) → IfNone result (step.now ≢ Do (Write chan Last)) }
{
    match step {
        Step::Do(
            Op::Write {
                chan,
                body: Source::Last,
            },
        ) => Some(*chan),
        _ => None,
    }
}

/// Returns the move that these steps are: a read, and a write of what was read.
fn move_in(steps: &[Step]) -> Option<Move>
    ensures { IfSome result (λ what. steps.now ≡ move_steps what.from what.reader what.to) }
{
    if steps.len() != 2 {
        return None;
    }
    let (from, reader) = read_in(&steps[0])?;
    let to = write_in(&steps[1])?;
    Some(Move { from, reader, to })
}

/// Returns the move of a transaction that has no other steps, between two channels.
fn only_move(checked: &Checked) -> Option<Move>
    ensures steps { IfSome result (λ what. checked.now.steps ≡ move_steps what.from what.reader what.to) }
    ensures declared { IfSome result (λ what. checked.now.declared ≡ lower_first what.from what.to) }
    ensures apart { IfSome result (λ what. what.from ≢ what.to) }
{
    let what = move_in(checked.steps())?;
    let Move { from, to, .. } = what;
    let declared = checked.declared();
    if from == to || declared.len() != 2 {
        return None;
    }
    let (low, high) = if from < to { (from, to) } else { (to, from) };
    if declared[0] != low || declared[1] != high {
        return None;
    }
    Some(what)
}

/// Returns whether these are the three numbers.
fn are_numbers(declared: &[u16], one: u16, two: u16, three: u16) -> bool
    ensures { result ≡ true → declared.now ≡ one ∷ two ∷ three ∷ [] }
{
    declared.len() == 3 && declared[0] == one && declared[1] == two && declared[2] == three
}

/// Returns whether these are the numbers of the channels of a choice, in rising order.
fn are_channels_of(declared: &[u16], what: Choice) -> bool
    ensures { result ≡ true → declared.now ≡ channels_of what }
{
    let Choice {
        first,
        second,
        to,
        ..
    } = what;
    let (low, high) = if first < second {
        (first, second)
    } else {
        (second, first)
    };
    if to < low {
        return are_numbers(declared, to, low, high);
    }
    if to < high {
        return are_numbers(declared, low, to, high);
    }
    are_numbers(declared, low, high, to)
}

/// Returns the choice that these alternatives are: two moves from different channels to the same third one.
fn choice_in(branches: &[List<Step>]) -> Option<Choice>
    ensures moves { IfSome result (λ what. branches.now ≡ move_steps what.first what.first_reader what.to
        ∷ move_steps what.second what.second_reader what.to ∷ []) }
    ensures apart { IfSome result (λ what. (what.first ≢ what.second) × (what.first ≢ what.to)
        × (what.second ≢ what.to)) }
{
    if branches.len() != 2 {
        return None;
    }
    let one = move_in(branches[0].as_slice())?;
    let other = move_in(branches[1].as_slice())?;
    let is_apart = one.from != other.from && one.from != one.to && other.from != other.to;
    if one.to != other.to || !is_apart {
        return None;
    }
    Some(Choice {
        first: one.from,
        first_reader: one.reader,
        second: other.from,
        second_reader: other.reader,
        to: one.to,
    })
}

/// Returns the choice of a transaction that has no other steps.
fn only_choice(checked: &Checked) -> Option<Choice>
    ensures steps { IfSome result (λ what. checked.now.steps
        ≡ choice_steps what.first what.first_reader what.second what.second_reader what.to) }
    ensures declared { IfSome result (λ what. checked.now.declared ≡ channels_of what) }
    ensures apart { IfSome result (λ what. (what.first ≢ what.second) × (what.first ≢ what.to)
        × (what.second ≢ what.to)) }
{
    let steps = checked.steps();
    if steps.len() != 1 {
        return None;
    }
    let Step::Or(branches) = &steps[0] else {
        return None;
    };
    let what = choice_in(branches.as_slice())?;
    if !are_channels_of(checked.declared(), what) {
        return None;
    }
    Some(what)
}

impl<K: Log> Table<K> {
    /// Commits a transaction that moves an item, or that chooses between two moves, at once, on its lines alone, if it
    /// can. Returns `Committed` if the transaction committed: the receipt is then the transaction's. Returns
    /// `MustRetry` if the transaction must be retried. Fails only if an allocation fails. Unless it returns
    /// `Committed`, nothing is changed except the replies and the acts of the receipt, which are then arbitrary.
    #[inline(never)]
    pub(super) fn commit_move_at_once<R: Wait>(
        &self,
        rt: &R,
        call: &Call<'_>,
        shares: &mut SeatShares<K>,
        permit: &mut LockPermit,
        receipt: &mut Receipt,
    ) -> Result<AtOnce, AllocError>
        requires of { line_ids shares.old ≡ self.now.lines.all }
        requires fits { Fits (slice_get self.now.kinds) call.now.checked.now.steps }
        ensures outcome { let plan = call.now.checked.now in IfOk result (λ is. is ≡ AtOnce.Committed
            → (m : Map) × AreKnown shares.old m × Answers (kept_tag m receipt.old.tag plan.declared)
            (transaction m receipt.old.tag plan.declared plan.steps) (RanKept receipt.new)) }
        ensures retry { let plan = call.now.checked.now in (cause : Causes) → IfOk result (λ is.
            is ≡ AtOnce.MustRetry cause → (m : Map) × AreKnown shares.old m
            × (transaction m receipt.old.tag plan.declared plan.steps ≡ Again cause)) }
        ensures kept { IfOk result (λ is. is ≡ AtOnce.Committed
            → IsKeptWith receipt.old.tag call.now.checked.now shares.old shares.new receipt.new) }
        ensures left { IfOk result (λ is. is ≢ AtOnce.Committed
            → (shares.new ≡ shares.old) × (receipt.new.tag ≡ receipt.old.tag)) }
        ensures lines { line_ids shares.new ≡ line_ids shares.old }
        ensures same { OnErr result (shares.new ≡ shares.old) }
    {
        let checked = call.checked;
        let Some(what) = only_move(checked) else {
            return self.commit_choice_at_once(rt, call, shares, permit, receipt);
        };
        checked.show_fits(self.kinds.as_slice());
        checked.show();
        shares.show();
        let order = LockOrder::new(&self.lines, permit);
        shares.commit_move(rt, order, receipt.tag, what, receipt)
    }

    /// Commits a transaction that chooses between two moves at once, as `commit_move_at_once` does.
    fn commit_choice_at_once<R: Wait>(
        &self,
        rt: &R,
        call: &Call<'_>,
        shares: &mut SeatShares<K>,
        permit: &mut LockPermit,
        receipt: &mut Receipt,
    ) -> Result<AtOnce, AllocError>
        requires of { line_ids shares.old ≡ self.now.lines.all }
        requires fits { Fits (slice_get self.now.kinds) call.now.checked.now.steps }
        ensures outcome { let plan = call.now.checked.now in IfOk result (λ is. is ≡ AtOnce.Committed
            → (m : Map) × AreKnown shares.old m × Answers (kept_tag m receipt.old.tag plan.declared)
            (transaction m receipt.old.tag plan.declared plan.steps) (RanKept receipt.new)) }
        ensures retry { let plan = call.now.checked.now in (cause : Causes) → IfOk result (λ is.
            is ≡ AtOnce.MustRetry cause → (m : Map) × AreKnown shares.old m
            × (transaction m receipt.old.tag plan.declared plan.steps ≡ Again cause)) }
        ensures kept { IfOk result (λ is. is ≡ AtOnce.Committed
            → IsKeptWith receipt.old.tag call.now.checked.now shares.old shares.new receipt.new) }
        ensures left { IfOk result (λ is. is ≢ AtOnce.Committed
            → (shares.new ≡ shares.old) × (receipt.new.tag ≡ receipt.old.tag)) }
        ensures lines { line_ids shares.new ≡ line_ids shares.old }
        ensures same { OnErr result (shares.new ≡ shares.old) }
    {
        let checked = call.checked;
        let Some(what) = only_choice(checked) else {
            return Ok(AtOnce::NotDone);
        };
        checked.show_fits(self.kinds.as_slice());
        checked.show();
        shares.show();
        let order = LockOrder::new(&self.lines, permit);
        shares.commit_choice(rt, order, receipt.tag, what, receipt)
    }
}
