// A transaction of one operation.
ghost use Rattle.std.specs.Prelude.{◌≡◌, ◌≢◌, ℕ, [], ◌∷◌, true, IfOk, IfErr, OnErr};
ghost use Rattle.txc_base.specs.Kinds.{supports};
ghost use Rattle.txc_base.specs.Op.{chan_of};
ghost use Rattle.txc_txn_check.specs.declared.step.Step.TheVariants.{Do};
ghost use Rattle.txc_txn.specs.Maps.{kinds_of};
ghost use Rattle.txc_txn.specs.Run.{RanSettled};
ghost use Rattle.txc_txn.specs.Transaction.{Aborted, kept_tag, transaction};

use crate::ran::Ran;
use crate::receipt::Receipt;
use crate::run::Run;
use crate::settle::Settle;
use crate::trace::{StepOutcome, Trace};
use crate::undo::undo_to;
use txc_base::{Op, Stop, Tag};
use txc_chan::Append;

/// Runs a transaction of one operation on its channel, which must be held and of a kind that has the operation. It is
/// what `run_held_reusing` does with this one step: the same receipt, stamps, retries and stops, but no step is kept
/// and nothing is noted of other channels. After a retry or a stop the channel is as before. The new receipt has the
/// memory of the spent one, and takes more only if that is too little. May wait if the handle may.
pub fn run_one<H: Settle, R: Append>(
    rt: &R,
    recycled: Receipt,
    hold: &mut H,
    tag: Tag,
    op: &Op,
) -> Result<Ran, Stop>
    requires held { H.IsHeld hold.old (chan_of op.now) }
    requires supports { supports (H.chans hold.old (chan_of op.now)).decl.kind op.now ≡ true }
    ensures held { (n : ℕ) → H.IsHeld hold.old n → H.IsHeld hold.new n }
    ensures kinds { kinds_of (H.chans hold.new) ≡ kinds_of (H.chans hold.old) }
    ensures ran { let before = H.chans hold.old in let named = chan_of op.now ∷ [] in
        IfOk result (λ ran. RanSettled (kept_tag before tag named) named
        (transaction before tag named (Do op.now ∷ [])) ran before (H.chans hold.new)) }
    ensures stopped { IfErr result (λ stop. stop ≢ Stop.NoMemory
        → transaction (H.chans hold.old) tag (chan_of op.now ∷ []) (Do op.now ∷ []) ≡ Aborted stop) }
    ensures unchanged { OnErr result (H.chans hold.new ≡ H.chans hold.old) }
    ensures fixed { H.fixed hold.new ≡ H.fixed hold.old }
{
    let chan = op.chan();
    let declared = [chan];
    let run = Run::begin(rt, hold, tag, &declared)?;
    let mark = hold.pending(chan);
    let mut trace = Trace::reusing(recycled, 1);
    match run.op(hold, &mut trace, op) {
        Ok(StepOutcome::Done) => {
            hold.settle(chan, run.tag.stamp);
            Ok(Ran::Kept(trace.receipt(run.tag)))
        }
        Ok(StepOutcome::Retry(cause)) => {
            undo_to(hold, chan, mark);
            Ok(Ran::Retry(cause))
        }
        Err(stop) => {
            undo_to(hold, chan, mark);
            Err(stop)
        }
    }
}
