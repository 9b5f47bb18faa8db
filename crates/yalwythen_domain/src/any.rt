// A domain as its callers see it, with recorded or unrecorded logs.
ghost use Rattle.std.specs.Prelude.{◌≡◌, ◌≢◌, false, true, IfOk, OnErr};
ghost use Rattle.yalwythen_domain.specs.Accounts.{HasRecords, account_of_domain};
ghost use Rattle.yalwythen_domain.specs.Any.{AnswersRequest, IsNewDomain, TellsItems, TellsRecords, Transacts};

use crate::account::{self, Record};
use crate::call_result::{CallResult, DONE, NO_MEMORY, NO_SUCH, NOT_NOW, REJECTED, call_result};
use crate::domain::State;
use crate::raw_steps::RawStep;
use std::alloc::{AllocError, Global};
use txc_chan::{FullLog, GhostLog};

/// The channels that can take part in one transaction, with seats. Their logs are recorded, so that channels have
/// accounts, or exist only in proofs.
#[derive(Drop)]
pub enum Domain {
    Unrecorded(State<GhostLog>),
    Recorded(State<FullLog>),
}

impl Domain {
    /// Creates a domain without channels or seats, whose logs exist only in proofs.
    pub fn unrecorded(alloc: Global) -> Domain
        ensures { IsNewDomain false result }
    {
        Domain::Unrecorded(State::new(alloc))
    }

    /// Creates a domain without channels or seats, whose logs are recorded.
    pub fn recorded(alloc: Global) -> Domain
        ensures { IsNewDomain true result }
    {
        Domain::Recorded(State::new(alloc))
    }

    /// Performs the request with the number `request`, and returns its result. The result's code is 4 if the request is
    /// rejected or has another number, and 5 if an allocation fails.
    pub fn ask(&mut self, request: u64, a: u64, b: u64) -> CallResult
        ensures { AnswersRequest request a b self.old self.new result }
    {
        match self {
            Domain::Unrecorded(state) => or_no_memory(state.ask(request, a, b)),
            Domain::Recorded(state) => or_no_memory(state.ask(request, a, b)),
        }
    }

    /// Runs the steps in `raw_steps` as one transaction of a seat. If the transaction commits, returns code 0 with the
    /// number of replies, and the front of `replies` has as many of them as fit. Otherwise the code is 1 if the
    /// transaction must be retried, 2 if it aborts, 3 if the steps are invalid, 4 if the request is rejected, and 5 if
    /// an allocation fails; the channels are unchanged.
    pub fn transact(
        &mut self,
        seat: u64,
        raw_steps: &[RawStep],
        replies: &mut [CallResult],
    ) -> CallResult
        ensures { Transacts seat raw_steps.now self.old self.new replies.old replies.new result }
    {
        match self {
            Domain::Unrecorded(state) => state.attempt(seat, raw_steps, replies),
            Domain::Recorded(state) => state.attempt(seat, raw_steps, replies),
        }
    }

    /// Writes the bodies of the items of a reply that has several, from item `from` on, to the front of `out`, as many
    /// as fit. The reply is one of the last committed transaction, or the last one of the open transaction if `reply`
    /// is `u64::MAX`. Returns code 0 and the number of items, or code 64 if there is no such reply.
    pub fn read_items(&self, reply: u64, from: u64, out: &mut [u64]) -> CallResult
        ensures { TellsItems reply from self.now out.old out.new result }
    {
        match self {
            Domain::Unrecorded(state) => state.items(reply, from, out),
            Domain::Recorded(state) => state.items(reply, from, out),
        }
    }

    /// Writes the records of a channel's account, from record `from` on, to the front of `out`, as many as fit. Returns
    /// code 0 with the number of all records. The code is 4 if logs are not recorded, if a transaction is open or if
    /// there is no such channel, and 5 if an allocation fails.
    pub fn read_account(&self, chan: u64, from: u64, out: &mut [Record]) -> CallResult
        ensures { TellsRecords chan from self.now out.old out.new result }
    {
        match self {
            Domain::Unrecorded(_) => call_result(REJECTED, NOT_NOW),
            Domain::Recorded(state) => or_no_memory(account_of(state, chan, from, out)),
        }
    }
}

/// Returns the result, or code 5 if an allocation failed.
fn or_no_memory(response: Result<CallResult, AllocError>) -> CallResult
    ensures ok { IfOk response (λ it. result ≡ it) }
    ensures err { OnErr response (result ≡ record { code = 5; value = 0 }) }
{
    match response {
        Ok(response) => response,
        Err(_) => call_result(NO_MEMORY, 0),
    }
}

/// Writes the records of a recorded channel's account to the front of `out`, and returns the result. Fails only if an
/// allocation fails.
fn account_of(
    state: &State<FullLog>,
    chan: u64,
    from: u64,
    out: &mut [Record],
) -> Result<CallResult, AllocError>
    ensures account { IfOk result (λ response.
        HasRecords (account_of_domain true state.now chan) from out.old out.new response) }
    ensures code { IfOk result (λ response. response.code ≢ 5) }
{
    if state.is_open() {
        return Ok(call_result(REJECTED, NOT_NOW));
    }
    let Ok(chan) = u16::try_from(chan) else {
        return Ok(call_result(REJECTED, NO_SUCH));
    };
    match state.channels.account(chan) {
        Ok(Some(account)) => {
            account::copy_records(&account, from, out);
            Ok(call_result(DONE, account::count(&account)))
        }
        Ok(None) => Ok(call_result(REJECTED, NO_SUCH)),
        Err(_) => Err(AllocError),
    }
}

/// Drops a value that any thread can have.
fn assert_send<T: Send + Drop>(_value: T) {}

/// Drops a domain and frees what it allocated. That this compiles shows that a domain is `Send`.
pub fn drop_domain(domain: Domain) {
    assert_send(domain);
}
