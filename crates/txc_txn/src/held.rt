// Atomic transactions on held channels.
ghost use Rattle.std.specs.Prelude.{◌≡◌, ℕ, IfOk, Contains};
ghost use Rattle.txc_txn.specs.ChanView.{HasEnded};
ghost use Rattle.txc_txn.specs.Maps.{kinds_of, settle_all};
ghost use Rattle.txc_txn.specs.Run.{RanAs, RanSettled};
ghost use Rattle.txc_txn_check.specs.Steps.{Fits};
ghost use Rattle.txc_txn.specs.Transaction.{kept_tag, transaction};

use crate::hold::Hold;
use crate::ran::Ran;
use crate::receipt::Receipt;
use crate::run::Run;
use crate::settle::Settle;
use crate::trace::{StepOutcome, Trace};
use crate::undo::{Marks, mark_all, undo_all};
use std::alloc::Global;
use txc_base::{Stop, Tag};
use txc_chan::Append;
use txc_txn_check::Checked;

/// Runs a transaction on held channels atomically. If it commits, its changes can still be undone, and must be settled
/// to become final.
///
/// `tag` has the stamp of the seat's last commit, or 0 before the first. The stamp of the receipt is one more than the
/// greatest of it and the stamps of the declared channels. Each declared channel must be held, and its kind must
/// support the operations on it.
///
/// Returns `Worn` if the serial or that greatest stamp is the greatest number. Otherwise returns the stop if the
/// transaction aborts, and `NoMemory` if allocation fails. On an error and on a retry all channels are unchanged.
/// Blocks only if the handle permits it. The receipt reuses the memory of `recycled`, and allocates only if that memory
/// is too small. Operations on the channels can allocate.
pub fn run_pending<H: Hold, R: Append>(
    rt: &R,
    recycled: Receipt,
    hold: &mut H,
    tag: Tag,
    checked: &Checked,
) -> Result<Ran, Stop>
    requires fits { Fits (kinds_of (H.chans hold.old)) checked.now.steps }
    requires held { (n : ℕ) → Contains checked.now.declared n → H.IsHeld hold.old n }
    ensures held { (n : ℕ) → H.IsHeld hold.old n → H.IsHeld hold.new n }
    ensures ended { HasEnded tag checked.now (H.chans hold.old) result (H.chans hold.new) }
    ensures ran { let before = H.chans hold.old in IfOk result (λ ran. RanAs (kept_tag before tag checked.now.declared)
        (transaction before tag checked.now.declared checked.now.steps) ran before (H.chans hold.new)) }
    ensures fixed { H.fixed hold.new ≡ H.fixed hold.old }
{
    checked.show();
    let run = Run::begin(rt, hold, tag, checked.declared())?;
    let mut marks = Marks::new();
    mark_all(hold, run.declared, &mut marks);
    let mut trace = Trace::reusing(recycled, checked.steps().len());
    match run.steps(hold, &mut trace, checked.steps()) {
        Ok(StepOutcome::Done) => Ok(Ran::Kept(trace.receipt(run.tag))),
        Ok(StepOutcome::Retry(cause)) => {
            undo_all(hold, run.declared, marks.as_slice());
            Ok(Ran::Retry(cause))
        }
        Err(stop) => {
            undo_all(hold, run.declared, marks.as_slice());
            Err(stop)
        }
    }
}

/// Makes the changes of the declared channels final, and gives each of these channels this stamp.
pub fn settle_declared<H: Settle>(hold: &mut H, stamp: u64, declared: &[u16])
    requires held { (n : ℕ) → Contains declared.now n → H.IsHeld hold.old n }
    ensures held { (n : ℕ) → H.IsHeld hold.old n → H.IsHeld hold.new n }
    ensures settled { H.chans hold.new ≡ settle_all (H.chans hold.old) stamp declared.now }
    ensures fixed { H.fixed hold.new ≡ H.fixed hold.old }
{
    for chan in declared {
        hold.settle(*chan, stamp);
    }
}

/// Runs a transaction like `run_pending`, under the same conditions. If it commits, its changes are final, each
/// declared channel has the receipt's stamp, and each new log entry has the receipt's tag. Fails and blocks like
/// `run_pending`.
pub fn run_held<H: Settle, R: Append>(
    rt: &R,
    alloc: Global,
    hold: &mut H,
    tag: Tag,
    checked: &Checked,
) -> Result<Ran, Stop>
    requires fits { Fits (kinds_of (H.chans hold.old)) checked.now.steps }
    requires held { (n : ℕ) → Contains checked.now.declared n → H.IsHeld hold.old n }
    ensures held { (n : ℕ) → H.IsHeld hold.old n → H.IsHeld hold.new n }
    ensures kinds { kinds_of (H.chans hold.new) ≡ kinds_of (H.chans hold.old) }
    ensures ended { HasEnded tag checked.now (H.chans hold.old) result (H.chans hold.new) }
    ensures ran { let before = H.chans hold.old in
        IfOk result (λ ran. RanSettled (kept_tag before tag checked.now.declared) checked.now.declared
        (transaction before tag checked.now.declared checked.now.steps) ran before (H.chans hold.new)) }
    ensures fixed { H.fixed hold.new ≡ H.fixed hold.old }
{
    run_held_reusing(rt, Receipt::blank(alloc), hold, tag, checked)
}

/// Runs a transaction like `run_held`, under the same conditions, in the memory of the receipt `recycled`. A caller
/// that drops each receipt once it is read can pass it as `recycled` next. The receipt allocates only if that memory is
/// too small. On an error and on a retry that memory is freed. Fails and blocks like `run_held`. Operations on the
/// channels can allocate.
pub fn run_held_reusing<H: Settle, R: Append>(
    rt: &R,
    recycled: Receipt,
    hold: &mut H,
    tag: Tag,
    checked: &Checked,
) -> Result<Ran, Stop>
    requires fits { Fits (kinds_of (H.chans hold.old)) checked.now.steps }
    requires held { (n : ℕ) → Contains checked.now.declared n → H.IsHeld hold.old n }
    ensures held { (n : ℕ) → H.IsHeld hold.old n → H.IsHeld hold.new n }
    ensures kinds { kinds_of (H.chans hold.new) ≡ kinds_of (H.chans hold.old) }
    ensures ended { HasEnded tag checked.now (H.chans hold.old) result (H.chans hold.new) }
    ensures ran { let before = H.chans hold.old in
        IfOk result (λ ran. RanSettled (kept_tag before tag checked.now.declared) checked.now.declared
        (transaction before tag checked.now.declared checked.now.steps) ran before (H.chans hold.new)) }
    ensures fixed { H.fixed hold.new ≡ H.fixed hold.old }
{
    match run_pending(rt, recycled, hold, tag, checked)? {
        Ran::Kept(receipt) => {
            settle_declared(hold, receipt.tag.stamp, checked.declared());
            Ok(Ran::Kept(receipt))
        }
        Ran::Retry(cause) => Ok(Ran::Retry(cause)),
    }
}
