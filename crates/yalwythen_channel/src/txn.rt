// A transaction as its callers see it, on channels with recorded or unrecorded logs.
ghost use Rattle.std.specs.Prelude.{◌≡◌, ◌≢◌, false, true, IfOk, OnErr};
ghost use Rattle.yalwythen_channel.specs.Txn.{AnswersRequest, IsNewTxn, TellsItems, Transacts};

use crate::call_result::{CallResult, NO_MEMORY, call_result};
use crate::raw_steps::RawStep;
use crate::state::State;
use std::alloc::{AllocError, Global};
use txc_chan::{FullLog, GhostLog};

/// Runs transactions of one seat, one at a time, on the channels that it has. The logs of these channels are recorded,
/// so that they have accounts, or exist only in proofs.
#[derive(Drop)]
pub enum Txn {
    Unrecorded(State<GhostLog>),
    Recorded(State<FullLog>),
}

impl Txn {
    /// Creates a transaction without channels, for channels whose logs exist only in proofs. Does not allocate.
    pub fn unrecorded(alloc: Global) -> Txn
        ensures { IsNewTxn false result }
    {
        Txn::Unrecorded(State::new(alloc))
    }

    /// Creates a transaction without channels, for channels whose logs are recorded. Does not allocate.
    pub fn recorded(alloc: Global) -> Txn
        ensures { IsNewTxn true result }
    {
        Txn::Recorded(State::new(alloc))
    }

    /// Performs the request with the number `request`, and returns its result. The result's code is 4 if the request is
    /// rejected or has another number, and 5 if an allocation fails.
    pub fn ask(&mut self, request: u64, a: u64, b: u64) -> CallResult
        ensures { AnswersRequest request a b self.old self.new result }
    {
        match self {
            Txn::Unrecorded(state) => or_no_memory(state.ask(request, a, b)),
            Txn::Recorded(state) => or_no_memory(state.ask(request, a, b)),
        }
    }

    /// Runs the steps in `raw_steps` as one transaction on the channels that it has, each by its number. If the
    /// transaction commits, returns code 0 with the number of replies, and the front of `replies` has as many of them
    /// as fit. Otherwise the code is 1 if the transaction must be retried, 2 if it aborts, 3 if the steps are invalid,
    /// 4 if the request is rejected, and 5 if an allocation fails; the channels are unchanged.
    pub fn transact(&mut self, raw_steps: &[RawStep], replies: &mut [CallResult]) -> CallResult
        ensures { Transacts raw_steps.now self.old self.new replies.old replies.new result }
    {
        match self {
            Txn::Unrecorded(state) => state.attempt(raw_steps, replies),
            Txn::Recorded(state) => state.attempt(raw_steps, replies),
        }
    }

    /// Writes the bodies of the items of a reply that has several, from item `from` on, to the front of `out`, as many
    /// as fit. The reply is one of the last committed transaction, or the last one of the open transaction if `reply`
    /// is `u64::MAX`. Returns code 0 and the number of items, or code 64 if there is no such reply.
    pub fn read_items(&self, reply: u64, from: u64, out: &mut [u64]) -> CallResult
        ensures { TellsItems reply from self.now out.old out.new result }
    {
        match self {
            Txn::Unrecorded(state) => state.items(reply, from, out),
            Txn::Recorded(state) => state.items(reply, from, out),
        }
    }
}

/// Returns the result, or code 5 if an allocation failed.
fn or_no_memory(response: Result<CallResult, AllocError>) -> CallResult
    ensures ok { IfOk response (λ it. result ≡ it) }
    ensures err { OnErr response (result ≡ record { code = 5; value = 0 }) }
{
    match response {
        Ok(response) => response,
        Err(_) => call_result(NO_MEMORY, 0),
    }
}

/// Drops a value that any thread can have.
fn assert_send<T: Send + Drop>(_value: T) {}

/// Drops a transaction with the channels that it has, and frees what they allocated. That this compiles shows that it
/// is `Send`.
pub fn drop_txn(txn: Txn) {
    assert_send(txn);
}
