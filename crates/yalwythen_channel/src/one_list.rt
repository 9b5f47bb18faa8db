// A list of operations on a few channels, as a whole transaction in one call.
ghost use Rattle.std.specs.Prelude.{◌≡◌, ◌≤◌, ◌<◌, ℕ, Some, Contains, IfOk, IfErr, IfSome, OnErr, length};
ghost use Rattle.txc_txn_check.specs.declared.step.Step.TheVariants.{Do};
ghost use Rattle.txc_txn_check.specs.Limits.{max_declared};
ghost use Rattle.txc_txn.specs.Growth.{AllGrow};
ghost use Rattle.txc_txn.specs.Maps.{kinds_of};
ghost use Rattle.txc_txn.specs.Plain.{chan_in};
ghost use Rattle.yalwythen_channel.specs.OneList.{HasAppliedTo, HasRunSteps, IsEndedBy, ListsOn, TransactsList};
ghost use Rattle.yalwythen_channel.specs.OneList.{HasRunList, RunsList, response_of_stop};
ghost use Rattle.yalwythen_channel.specs.RawSteps.{step_of};

use crate::call_result::{
    CallResult, DONE, FAULTY, NO_MEMORY, NO_SUCH, NOT_NOW, REJECTED, RETRY, STOPPED, call_result,
};
use crate::channels::{Channels, NO_TAG};
use crate::enlisted::Enlisted;
use crate::numbers::{cause_number, step_numbered, tell};
use crate::raw_steps::RawStep;
use crate::state::State;
use crate::txn::Txn;
use txc_base::{Op, Reply, Stop, Tag, supports};
use txc_chan::{Answer, Log, NonBlocking};
use txc_txn::{Hold, Marks, Run, mark_all, settle_declared, undo_all};
use txc_txn_check::{Step, TxnFault};

/// Returns the operation of a step. A flush is none, since its reply has several items.
#[inline(always)]
fn operation_of(step: RawStep) -> Option<Op>
    ensures { IfSome result (λ op. step_of step ≡ Some (Do op)) }
{
    if step.number == 16 {
        return None;
    }
    match step_numbered(step.number, step.chan, step.reader, step.body) {
        Some(Step::Do(op)) => Some(op),
        _ => None,
    }
}

/// Returns the result of a transaction that stops.
fn response_of_stop(stop: Stop) -> CallResult
    ensures { result ≡ response_of_stop stop }
{
    match stop {
        Stop::NoMemory => call_result(NO_MEMORY, 0),
        stop => call_result(STOPPED, u64::from(stop.code())),
    }
}

/// Applies the operation of a step. Returns its reply, or why the transaction does not commit.
#[inline(always)]
fn apply_step<K: Log>(
    few: &mut Enlisted<K>,
    kept: Tag,
    step: RawStep,
    last: Option<u64>,
) -> Result<Reply, CallResult>
    ensures ok { IfOk result (λ reply. HasAppliedTo kept step last (chan_in few.old) (chan_in few.new) reply) }
    ensures err { IfErr result (λ response. IsEndedBy kept step last (chan_in few.old) response) }
    ensures unchanged { OnErr result (chan_in few.new ≡ chan_in few.old) }
    ensures length { length few.new ≡ length few.old }
    ensures grows { AllGrow kept (chan_in few.old) (chan_in few.new) }
{
    let Some(op) = operation_of(step) else {
        return Err(call_result(REJECTED, NO_SUCH));
    };
    let chan = op.chan();
    if chan as usize >= few.len() {
        return Err(call_result(FAULTY, u64::from(TxnFault::NoChannel.code())));
    }
    if !supports(few.chan(chan).kind(), &op) {
        return Err(call_result(FAULTY, u64::from(TxnFault::NotForKind.code())));
    }
    match few.apply(&NonBlocking, chan, kept, &op, last) {
        Ok(Answer::Replied(reply)) => Ok(reply),
        Ok(Answer::Retry(cause)) => Err(call_result(RETRY, cause_number(cause))),
        Err(stop) => Err(response_of_stop(stop)),
    }
}

/// Applies the operations of steps, one after another, up to the first that does not reply. Writes their replies.
#[inline(always)]
fn run_steps<K: Log>(
    few: &mut Enlisted<K>,
    kept: Tag,
    raw_steps: &[RawStep],
    replies: &mut [CallResult],
) -> CallResult
    requires room { length raw_steps.now ≤ length replies.old }
    ensures ran { HasRunSteps kept raw_steps.now (chan_in few.old) (chan_in few.new) replies.new result }
    ensures length { length few.new ≡ length few.old }
    ensures grows { AllGrow kept (chan_in few.old) (chan_in few.new) }
{
    let mut last = None;
    for place in 0..raw_steps.len() {
        match apply_step(few, kept, raw_steps[place], last) {
            Ok(reply) => {
                last = reply.last_read_after(last);
                replies[place] = tell(&reply);
            }
            Err(response) => return response,
        }
    }
    call_result(DONE, raw_steps.len() as u64)
}

/// Runs steps as one transaction of no seat, which declares all channels.
pub(crate) fn transact_few<K: Log>(
    few: &mut Enlisted<K>,
    declared: &[u16],
    raw_steps: &[RawStep],
    replies: &mut [CallResult],
) -> CallResult
    requires there { (n : ℕ) → Contains declared.now n → n < length few.old }
    requires all { (n : ℕ) → n < length few.old → Contains declared.now n }
    requires few { length declared.now ≤ max_declared }
    ensures ended { TransactsList raw_steps.now declared.now (chan_in few.old) (chan_in few.new) replies.new result }
    ensures length { length few.new ≡ length few.old }
    ensures kinds { kinds_of (chan_in few.new) ≡ kinds_of (chan_in few.old) }
{
    if replies.len() < raw_steps.len() {
        return call_result(REJECTED, NOT_NOW);
    }
    let Ok(run) = Run::begin(&NonBlocking, few, NO_TAG, declared) else {
        return call_result(STOPPED, u64::from(Stop::Worn.code()));
    };
    let kept = run.tag;
    let mut marks = Marks::new();
    mark_all(few, declared, &mut marks);
    let response = run_steps(few, kept, raw_steps, replies);
    if response.code == DONE {
        settle_declared(few, kept.stamp, declared);
    } else {
        undo_all(few, declared, marks.as_slice());
    }
    response
}

/// The numbers of the channels of a list.
const NUMBERS: [u16; 4] = [0, 1, 2, 3];

impl<K: Log> Channels<K> {
    /// Runs a list of operations on all channels, at most four, as one transaction of no seat.
    fn run_list(&mut self, raw_steps: &[RawStep], replies: &mut [CallResult]) -> CallResult
        ensures ended { ListsOn raw_steps.now self.old.held self.new.held replies.new result }
        ensures rest { (self.new.kinds ≡ self.old.kinds) × (self.new.txn ≡ self.old.txn)
            × (self.new.savepoints ≡ self.old.savepoints) }
    {
        let count = self.plain.len();
        if count > 4 {
            return call_result(FAULTY, u64::from(TxnFault::TooManyChannels.code()));
        }
        transact_few(&mut self.plain, &NUMBERS[..count], raw_steps, replies)
    }
}

impl<K: Log> State<K> {
    /// Runs a list of operations on all channels as one transaction of no seat. Nothing but the channels is changed.
    fn run_list(&mut self, raw_steps: &[RawStep], replies: &mut [CallResult]) -> CallResult
        ensures { HasRunList raw_steps.now self.old self.new replies.new result }
    {
        if self.is_open() {
            return call_result(REJECTED, NOT_NOW);
        }
        self.channels.run_list(raw_steps, replies)
    }
}

impl Txn {
    /// Runs the operations in `raw_steps` as one transaction of no seat on all channels that it has. There may be at
    /// most four, and their logs must not be recorded. If the transaction commits, returns code 0 with the number of
    /// replies, and writes them to the front of `replies`. No receipt is stored. Otherwise the code is 1 if the
    /// transaction must be retried, 2 if it aborts, 3 if a step is invalid, 4 if the request is rejected, and 5 if an
    /// allocation fails; the channels are unchanged. A flush, a retry and a mark of alternatives are rejected, as are
    /// too few places for replies.
    pub fn list(&mut self, raw_steps: &[RawStep], replies: &mut [CallResult]) -> CallResult
        ensures { RunsList raw_steps.now self.old self.new replies.new result }
    {
        match self {
            Txn::Unrecorded(state) => state.run_list(raw_steps, replies),
            Txn::Recorded(_) => call_result(REJECTED, NOT_NOW),
        }
    }
}
