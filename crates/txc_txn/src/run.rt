// Running steps over held channels.
ghost use Rattle.std.specs.Prelude.{◌≡◌, ◌≢◌, ◌≤◌, ◌||◌, ℕ, true, false, length, IfOk, IfErr, OnOk};
ghost use Rattle.std.specs.Prelude.{Contains, IsTrue, All};
ghost use Rattle.txc_base.specs.declared.cause.Cause.TheVariants.{Asked};
ghost use Rattle.txc_base.specs.Kinds.{supports};
ghost use Rattle.txc_base.specs.Op.{chan_of};
ghost use Rattle.txc_txn.specs.Growth.{AllGrow};
ghost use Rattle.txc_txn.specs.Maps.{kinds_of, put_at};
ghost use Rattle.txc_txn.specs.Run.{HasRun, KeepsTrace, alternatives, ending_of, state_of};
ghost use Rattle.txc_txn_check.specs.Limits.{max_declared};
ghost use Rattle.txc_txn_check.specs.Steps.{Fits, NamesOnly, every, is_fit, is_on};
ghost use Rattle.txc_txn.specs.Transaction.{Aborted, greatest, is_worn, kept_tag, op_in, step_in, steps_in};

use crate::hold::Hold;
use crate::next_tag::tag_after;
use crate::savepoint::Savepoint;
use crate::trace::{StepOutcome, Trace, add_deeds, add_reply};
use txc_base::{Cause, List, Op, Stop, Tag};
use txc_chan::{Answer, Append};
use txc_txn_check::Step;

/// The fixed data of a run of a transaction.
#[derive(Drop)]
pub struct Run<'a, R> {
    /// The handle with which it appends to broadcast lists.
    pub rt: &'a R,
    /// The tag of the log entries that it adds.
    pub tag: Tag,
    /// The numbers of the channels that it may change.
    pub declared: &'a [u16],
}

/// Returns the greatest of this stamp and the stamps of the declared channels.
fn greatest_stamp<H: Hold>(hold: &mut H, stamp: u64, declared: &[u16]) -> u64
    requires held { (n : ℕ) → Contains declared.now n → H.IsHeld hold.old n }
    ensures value { result ≡ greatest (H.chans hold.old) stamp declared.now }
    ensures same { hold.new ≡ hold.old }
{
    let mut most = stamp;
    for chan in declared {
        most = most.max(hold.stamp(*chan));
    }
    most
}

impl<'a, R: Append> Run<'a, R> {
    /// Begins a run with the tag that it commits with. The stamp of that tag is one more than the greatest of the given
    /// tag's stamp and the stamps of the declared channels. Returns `Worn` if the serial or that greatest stamp is the
    /// greatest number.
    pub fn begin<H: Hold>(
        rt: &'a R,
        hold: &mut H,
        tag: Tag,
        declared: &'a [u16],
    ) -> Result<Run<'a, R>, Stop>
        requires held { (n : ℕ) → Contains declared.now n → H.IsHeld hold.old n }
        ensures tag { IfOk result (λ run. run.tag ≡ kept_tag (H.chans hold.old) tag declared.now) }
        ensures declared { IfOk result (λ run. run.declared.now ≡ declared.now) }
        ensures can_rise { OnOk result (is_worn tag.serial
            || is_worn (greatest (H.chans hold.old) tag.stamp declared.now) ≡ false) }
        ensures worn { IfErr result (λ stop. (stop ≡ Stop.Worn) × (is_worn tag.serial
            || is_worn (greatest (H.chans hold.old) tag.stamp declared.now) ≡ true)) }
        ensures same { hold.new ≡ hold.old }
    {
        let most = greatest_stamp(hold, tag.stamp, declared);
        let Some(tag) = tag_after(tag, most) else {
            return Err(Stop::Worn);
        };
        Ok(Run { rt, tag, declared })
    }

    /// Runs an operation. Its acts can be undone afterwards, also after an error. Returns the stop if the operation
    /// aborts, and `NoMemory` if allocation fails. Blocks only if the handle permits it.
    pub fn op<H: Hold>(&self, hold: &mut H, trace: &mut Trace, op: &Op) -> Result<StepOutcome, Stop>
        requires held { H.IsHeld hold.old (chan_of op.now) }
        requires supports { supports (H.chans hold.old (chan_of op.now)).decl.kind op.now ≡ true }
        ensures held { (n : ℕ) → H.IsHeld hold.old n → H.IsHeld hold.new n }
        ensures others { H.chans hold.new
            ≡ put_at (H.chans hold.old) (chan_of op.now) (H.chans hold.new (chan_of op.now)) }
        ensures grows { AllGrow self.now.tag (H.chans hold.old) (H.chans hold.new) }
        ensures keeps { KeepsTrace trace.old trace.new }
        ensures ok { IfOk result (λ flow. op_in self.now.tag op.now (state_of (H.chans hold.old) trace.old)
            ≡ ending_of flow (state_of (H.chans hold.new) trace.new)) }
        ensures err { IfErr result (λ stop. stop ≢ Stop.NoMemory →
            op_in self.now.tag op.now (state_of (H.chans hold.old) trace.old) ≡ Aborted stop) }
        ensures fixed { H.fixed hold.new ≡ H.fixed hold.old }
    {
        let chan = op.chan();
        let place = hold.log_len(chan);
        match hold.apply(self.rt, chan, self.tag, op, trace.last)? {
            Answer::Replied(reply) => {
                add_deeds(hold, chan, place, trace)?;
                add_reply(trace, reply)?;
                Ok(StepOutcome::Done)
            }
            Answer::Retry(cause) => Ok(StepOutcome::Retry(cause)),
        }
    }

    /// Runs a step. Its acts can be undone afterwards, also after a retry or an error.
    #[cycle(run)]
    fn step<H: Hold>(
        &self,
        hold: &mut H,
        trace: &mut Trace,
        step: &Step,
    ) -> Result<StepOutcome, Stop>
        requires names { IsTrue (every (is_on self.now.declared.now) step.now) }
        requires fits { IsTrue (every (is_fit (kinds_of (H.chans hold.old))) step.now) }
        requires held { (n : ℕ) → Contains self.now.declared.now n → H.IsHeld hold.old n }
        requires few { length self.now.declared.now ≤ max_declared }
        ensures held { (n : ℕ) → H.IsHeld hold.old n → H.IsHeld hold.new n }
        ensures runs { HasRun self.now.tag self.now.declared.now (step_in self.now.tag step.now)
            (H.chans hold.old) trace.old result (H.chans hold.new) trace.new }
        ensures fixed { H.fixed hold.new ≡ H.fixed hold.old }
    {
        match step {
            Step::Do(op) => self.op(hold, trace, op),
            Step::Or(branches) => self.or(hold, trace, branches.as_slice()),
            Step::Retry => Ok(StepOutcome::Retry(Cause::Asked)),
        }
    }

    /// Runs steps one after another, up to the first that must be retried or fails. Their acts can be undone
    /// afterwards. Returns the stop if a step aborts, and `NoMemory` if allocation fails. Blocks only if the handle
    /// permits it.
    #[cycle(run)]
    pub fn steps<H: Hold>(
        &self,
        hold: &mut H,
        trace: &mut Trace,
        steps: &[Step],
    ) -> Result<StepOutcome, Stop>
        requires names { NamesOnly self.now.declared.now steps.now }
        requires fits { Fits (kinds_of (H.chans hold.old)) steps.now }
        requires held { (n : ℕ) → Contains self.now.declared.now n → H.IsHeld hold.old n }
        requires few { length self.now.declared.now ≤ max_declared }
        ensures held { (n : ℕ) → H.IsHeld hold.old n → H.IsHeld hold.new n }
        ensures runs { HasRun self.now.tag self.now.declared.now (steps_in self.now.tag steps.now)
            (H.chans hold.old) trace.old result (H.chans hold.new) trace.new }
        ensures fixed { H.fixed hold.new ≡ H.fixed hold.old }
    {
        for step in steps {
            match self.step(hold, trace, step)? {
                StepOutcome::Done => {}
                StepOutcome::Retry(cause) => return Ok(StepOutcome::Retry(cause)),
            }
        }
        Ok(StepOutcome::Done)
    }

    /// Runs these branches in order until one need not be retried. Undoes each branch that must be retried.
    #[cycle(run)]
    fn or<H: Hold>(
        &self,
        hold: &mut H,
        trace: &mut Trace,
        branches: &[List<Step>],
    ) -> Result<StepOutcome, Stop>
        requires names { All (NamesOnly self.now.declared.now) branches.now }
        requires fits { All (Fits (kinds_of (H.chans hold.old))) branches.now }
        requires held { (n : ℕ) → Contains self.now.declared.now n → H.IsHeld hold.old n }
        requires few { length self.now.declared.now ≤ max_declared }
        ensures held { (n : ℕ) → H.IsHeld hold.old n → H.IsHeld hold.new n }
        ensures runs { HasRun self.now.tag self.now.declared.now (alternatives self.now.tag Asked branches.now)
            (H.chans hold.old) trace.old result (H.chans hold.new) trace.new }
        ensures fixed { H.fixed hold.new ≡ H.fixed hold.old }
    {
        let start = Savepoint::of(hold, self.declared, trace);
        let mut cause = Cause::Asked;
        for branch in branches {
            match self.steps(hold, trace, branch.as_slice())? {
                StepOutcome::Done => return Ok(StepOutcome::Done),
                StepOutcome::Retry(why) => {
                    start.restore(hold, self.declared, trace);
                    cause = why;
                }
            }
        }
        Ok(StepOutcome::Retry(cause))
    }
}
