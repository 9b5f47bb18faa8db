// A domain: channels with their seats, and the requests to them.
ghost use Rattle.std.specs.Prelude.{◌≡◌, ◌≢◌, ◌<◌, ◌≤◌, Some, length, map, max, min, take, slice_get, slice_set};
ghost use Rattle.std.specs.Prelude.{All, Err, IfOk, IsErr, IsTrue, Ok, OnErr, [], ◌∷◌, false};
ghost use Rattle.txc_base.specs.declared.tag.Tag.{Tag as Tags};
ghost use Rattle.txc_txn_check.specs.declared.step.Step.TheVariants.{Do};
ghost use Rattle.txc_txn_check.specs.Walk.{Fine, Tally, walk};
ghost use Rattle.txc_txn.specs.declared.ran.Ran.TheVariants.{Kept as RanKept};
ghost use Rattle.txc_txn.specs.AtOnce.{IsImmediate};
ghost use Rattle.txc_txn.specs.Plain.{chan_in};
ghost use Rattle.yalwythen_domain.specs.Domain.{IsNew};
ghost use Rattle.yalwythen_domain.specs.Ending.{ComesOfSteps, RanInDomain, clock_after, last_after};
ghost use Rattle.yalwythen_domain.specs.Ending.{response_of_run, response_of_ran};
ghost use Rattle.yalwythen_domain.specs.Ending.{seat_tag_after, tags_after};
ghost use Rattle.yalwythen_domain.specs.Opening.{count_response, is_open};
ghost use Rattle.yalwythen_domain.specs.Requests.{HasAddedSeat, HasDeclared, HasTransacted, IsUnchanged};
ghost use Rattle.yalwythen_domain.specs.RawSteps.{IsPlain, reply_response, response_of};
ghost use Rattle.yalwythen_domain.specs.Written.{AreSteps};

use crate::call_result::{
    BAD_DECL, CallResult, DONE, FAULTY, NO_LOG, NO_MEMORY, NO_REPLY, NO_SUCH, NOT_NOW, REJECTED,
    RETRY, STOPPED, UNPAIRED, call_result,
};
use crate::channels::{Channels, RunError};
use crate::limits::{DOMAIN_CHANNELS, DOMAIN_SEATS};
use crate::numbers::{cause_number, tell};
use crate::raw_steps::{RawStep, RawStepError, only_operation, read_raw_steps};
use std::alloc::{AllocError, Global};
use std::marker::Model;
use std::mem;
use txc_base::{Op, Reply, Stop, Tag};
use txc_chan::{ChanFault, Decl, Log};
use txc_txn::{Ran, Receipt};
use txc_txn_check::TxnFault;

/// Whether a transaction is open.
#[derive(Debug, Clone, Copy)]
pub enum TransactionStatus {
    /// No transaction is open.
    Idle,
    /// A transaction is open, and goes on.
    Open,
    /// A transaction is open, and must be rolled back.
    Failed,
}

/// Channels with their seats, and the receipt of the last committed transaction.
#[derive(Drop)]
pub struct State<K: Log> {
    pub(crate) alloc: Global,
    pub(crate) channels: Channels<K>,
    // Of each seat: its number, the serial number of its next transaction, and the stamp of its last one.
    pub(crate) tags: Vec<Tag>,
    // The greatest stamp of a transaction so far.
    pub(crate) clock: u64,
    pub(crate) status: TransactionStatus,
    pub(crate) last: Receipt,
    // The next receipt reuses its memory, so that a transaction need not allocate.
    pub(crate) recycled: Receipt,
}

impl<K: Log> Model for State<K> {
    ghost use Rattle.yalwythen_domain.specs.Domain.{DomainState};

    ghost Value = { DomainState };

    ghost view = { λ state. record {
      channels = state.channels;
      tags = state.tags.items;
      clock = state.clock;
      status = state.status;
      last = state.last;
    } };
}

impl<K: Log> State<K> {
    /// Creates a domain without channels or seats.
    pub(crate) fn new(alloc: Global) -> State<K>
        ensures { IsNew result }
    {
        State {
            alloc,
            channels: Channels::new(alloc),
            tags: Vec::new(alloc),
            clock: 0,
            status: TransactionStatus::Idle,
            last: Receipt::blank(alloc),
            recycled: Receipt::blank(alloc),
        }
    }

    /// Returns whether a transaction is open.
    pub(crate) fn is_open(&self) -> bool
        ensures { result ≡ is_open self.now.status }
    {
        !matches!(self.status, TransactionStatus::Idle)
    }

    /// Declares a channel, if there is such a declaration. Returns code 0 with the number of the channel. If the
    /// request is rejected or an allocation fails, the channels are unchanged.
    pub(crate) fn declare(&mut self, decl: Option<Decl>) -> Result<CallResult, AllocError>
        ensures ok { IfOk result (λ response. HasDeclared decl K.shelves self.old self.new response) }
        ensures code { IfOk result (λ response. response.code ≢ 5) }
        ensures err { OnErr result (self.new ≡ self.old) }
    {
        let Some(decl) = decl else {
            return Ok(call_result(REJECTED, NO_SUCH));
        };
        if self.is_open() || self.channels.len() >= DOMAIN_CHANNELS {
            return Ok(call_result(REJECTED, NOT_NOW));
        }
        if K::shelves() && decl.kind.is_broadcast() {
            return Ok(call_result(REJECTED, NO_LOG));
        }
        match self.channels.declare(decl) {
            Ok(number) => Ok(call_result(DONE, u64::from(number))),
            Err(ChanFault::NoMemory) => Err(AllocError),
            Err(fault) => Ok(call_result(REJECTED, BAD_DECL + u64::from(fault.code()))),
        }
    }

    /// Adds a seat. Returns code 0 with its number. If the request is rejected or an allocation fails, the seats are
    /// unchanged.
    pub(crate) fn add_seat(&mut self) -> Result<CallResult, AllocError>
        ensures ok { IfOk result (λ response. HasAddedSeat self.old self.new response) }
        ensures code { IfOk result (λ response. response.code ≢ 5) }
        ensures err { OnErr result (self.new ≡ self.old) }
    {
        let number = self.tags.len();
        if self.is_open() || number >= DOMAIN_SEATS {
            return Ok(call_result(REJECTED, NOT_NOW));
        }
        self.tags.push(Tag {
            seat: number as u16,
            serial: 0,
            stamp: 0,
        })?;
        Ok(call_result(DONE, number as u64))
    }

    /// Runs the transaction of a seat whose steps are in an array. Returns code 0 with the number of replies if it
    /// commits. Fails only if an allocation fails.
    fn run(&mut self, seat: u64, raw_steps: &[RawStep]) -> Result<CallResult, AllocError>
        requires { seat < length self.old.tags }
        ensures ran { (tag : Tags) → slice_get self.old.tags seat ≡ Some tag → All IsPlain raw_steps.now
            → IfOk result (λ response.
            RanInDomain tag raw_steps.now self.old.channels self.new.channels self.old.last self.new.last response) }
        ensures ran_any { (tag : Tags) → slice_get self.old.tags seat ≡ Some tag
            → IfOk result (λ response. response.code < 3
            → RanInDomain tag raw_steps.now self.old.channels self.new.channels self.old.last self.new.last response) }
        ensures tags { IfOk result (λ response. response.code ≡ 0
            → self.new.tags ≡ slice_set self.old.tags seat (seat_tag_after self.new.last.tag)) }
        ensures clock { IfOk result (λ response. response.code ≡ 0
            → self.new.clock ≡ max self.old.clock self.new.last.tag.stamp) }
        ensures failed { IfOk result (λ response. response.code ≢ 0 → IsUnchanged self.old self.new) }
        ensures err { OnErr result (IsUnchanged self.old self.new) }
        ensures rest { (self.new.channels.kinds ≡ self.old.channels.kinds)
            × (self.new.channels.txn ≡ self.old.channels.txn)
            × (self.new.channels.savepoints ≡ self.old.channels.savepoints)
            × (self.new.status ≡ self.old.status) }
        ensures code { IfOk result (λ response. response.code ≢ 5) }
    {
        let tag = self.tags[seat as usize];
        let steps = match read_raw_steps(self.alloc, raw_steps) {
            Ok(steps) => steps,
            Err(fault) => return response_of_order_error(fault),
        };
        let recycled = mem::replace(&mut self.recycled, Receipt::blank(self.alloc));
        match self.channels.run(recycled, tag, steps) {
            Ok(ran) => Ok(self.note(seat, ran)),
            Err(error) => response_of_error(error),
        }
    }

    /// Notes that a transaction of a seat committed with this tag.
    fn note_tag(&mut self, seat: u64, tag: Tag)
        ensures tags { self.new.tags ≡ slice_set self.old.tags seat (seat_tag_after tag) }
        ensures clock { self.new.clock ≡ max self.old.clock tag.stamp }
        ensures rest { (self.new.channels ≡ self.old.channels) × (self.new.status ≡ self.old.status)
            × (self.new.last ≡ self.old.last) }
    {
        self.clock = self.clock.max(tag.stamp);
        if seat < self.tags.len() as u64 {
            // The run tests that the serial is below the greatest.
            self.tags[seat as usize] = Tag {
                seat: tag.seat,
                serial: tag.serial.saturating_add(1),
                stamp: tag.stamp,
            };
        }
    }

    /// Notes how a transaction of a seat ended, and returns the result.
    pub(crate) fn note(&mut self, seat: u64, ran: Ran) -> CallResult
        ensures response { result ≡ response_of_ran ran }
        ensures last { self.new.last ≡ last_after ran self.old.last }
        ensures tags { self.new.tags ≡ tags_after ran seat self.old.tags }
        ensures clock { self.new.clock ≡ clock_after ran self.old.clock }
        ensures channels { self.new.channels ≡ self.old.channels }
        ensures status { self.new.status ≡ self.old.status }
        ensures retried { result.code ≢ 0 → self.new ≡ self.old }
    {
        match ran {
            Ran::Kept(receipt) => {
                let tag = receipt.tag;
                self.recycled = mem::replace(&mut self.last, receipt);
                self.note_tag(seat, tag);
                call_result(DONE, self.last.replies.len() as u64)
            }
            Ran::Retry(cause) => call_result(RETRY, cause_number(cause)),
        }
    }

    /// Returns a reply of the last committed transaction.
    pub(crate) fn reply(&self, number: u64) -> CallResult
        ensures { result ≡ reply_response (slice_get self.now.last.replies number) }
    {
        match self.last.replies.get(number as usize) {
            Some(reply) => tell(reply),
            None => call_result(NO_REPLY, 0),
        }
    }

    /// Returns how many acts were done on a channel.
    pub(crate) fn count(&self, chan: u64) -> CallResult
        ensures { result ≡ count_response self.now.channels chan }
    {
        let Ok(chan) = u16::try_from(chan) else {
            return call_result(REJECTED, NO_SUCH);
        };
        match self.channels.count(chan) {
            Some(count) => call_result(DONE, count),
            None => call_result(REJECTED, NO_SUCH),
        }
    }

    /// Runs an operation of a seat as one transaction at once, like `Channels::commit_one`. If it returns false or
    /// fails, nothing is changed.
    fn commit_one(&mut self, seat: u64, op: &Op) -> Result<bool, AllocError>
        requires { seat < length self.old.tags }
        ensures comes { (tag : Tags) → slice_get self.old.tags seat ≡ Some tag → IfOk result (λ is. IsTrue is
            → ComesOfSteps (walk (slice_get self.old.channels.kinds) (Do op.now ∷ [])) tag (Do op.now ∷ [])
            (Ok (RanKept self.new.last)) (chan_in self.old.channels.held) (chan_in self.new.channels.held)) }
        ensures tags { IfOk result (λ is. IsTrue is
            → self.new.tags ≡ slice_set self.old.tags seat (seat_tag_after self.new.last.tag)) }
        ensures clock { IfOk result (λ is. IsTrue is
            → self.new.clock ≡ max self.old.clock self.new.last.tag.stamp) }
        ensures left { IfOk result (λ is. is ≡ false → IsUnchanged self.old self.new) }
        ensures once { (tag : Tags) (tally : Tally) → slice_get self.old.tags seat ≡ Some tag
            → walk (slice_get self.old.channels.kinds) (Do op.now ∷ []) ≡ Fine tally
            → IfOk result (λ is. IsImmediate (chan_in self.old.channels.held) tag op.now → IsTrue is) }
        ensures unchanged { OnErr result (IsUnchanged self.old self.new) }
        ensures rest { (self.new.channels.kinds ≡ self.old.channels.kinds)
            × (self.new.channels.txn ≡ self.old.channels.txn)
            × (self.new.channels.savepoints ≡ self.old.channels.savepoints)
            × (self.new.status ≡ self.old.status) }
    {
        let before = self.tags[seat as usize];
        if !self.channels.commit_one(before, op, &mut self.last)? {
            return Ok(false);
        }
        self.note_tag(seat, self.last.tag);
        Ok(true)
    }

    /// Runs the transaction with this operation as its only step like `attempt`: at once if it can.
    fn attempt_one(
        &mut self,
        seat: u64,
        op: &Op,
        raw_steps: &[RawStep],
        replies: &mut [CallResult],
    ) -> CallResult
        requires { AreSteps raw_steps.now (Do op.now ∷ []) }
        ensures { HasTransacted seat raw_steps.now self.old self.new replies.old replies.new result }
    {
        if seat >= self.tags.len() as u64 || self.is_open() {
            return self.attempt_all(seat, raw_steps, replies);
        }
        match self.commit_one(seat, op) {
            Ok(true) => {
                copy_replies(self.last.replies.as_slice(), replies);
                call_result(DONE, self.last.replies.len() as u64)
            }
            Ok(false) => self.attempt_all(seat, raw_steps, replies),
            Err(AllocError) => call_result(NO_MEMORY, 0),
        }
    }

    /// Runs the transaction of a seat whose steps are in an array. If it commits, the front of `replies` has as many of
    /// its replies as fit. The code is 5 if an allocation fails.
    pub(crate) fn attempt(
        &mut self,
        seat: u64,
        raw_steps: &[RawStep],
        replies: &mut [CallResult],
    ) -> CallResult
        ensures { HasTransacted seat raw_steps.now self.old self.new replies.old replies.new result }
    {
        match only_operation(raw_steps) {
            Some(op) => self.attempt_one(seat, &op, raw_steps, replies),
            None => self.attempt_all(seat, raw_steps, replies),
        }
    }

    /// Runs the transaction whose steps are in an array like `attempt`, whatever steps they are.
    fn attempt_all(
        &mut self,
        seat: u64,
        raw_steps: &[RawStep],
        replies: &mut [CallResult],
    ) -> CallResult
        ensures { HasTransacted seat raw_steps.now self.old self.new replies.old replies.new result }
    {
        if seat >= self.tags.len() as u64 {
            return call_result(REJECTED, NO_SUCH);
        }
        if self.is_open() {
            return call_result(REJECTED, NOT_NOW);
        }
        match self.run(seat, raw_steps) {
            Ok(response) => {
                if response.code == DONE {
                    copy_replies(self.last.replies.as_slice(), replies);
                }
                response
            }
            Err(_) => call_result(NO_MEMORY, 0),
        }
    }
}

/// Returns the result for an array that is not a list of steps. Fails if an allocation failed.
fn response_of_order_error(fault: RawStepError) -> Result<CallResult, AllocError>
    ensures memory { fault ≡ RawStepError.NoMemory → IsErr result }
    ensures code { IfOk result (λ response. (response.code ≢ 0) × (3 ≤ response.code) × (response.code ≢ 5)) }
{
    match fault {
        RawStepError::NoSuch => Ok(call_result(REJECTED, NO_SUCH)),
        RawStepError::Unpaired => Ok(call_result(REJECTED, UNPAIRED)),
        RawStepError::TooDeep => Ok(call_result(FAULTY, u64::from(TxnFault::TooDeep.code()))),
        RawStepError::NoMemory => Err(AllocError),
    }
}

/// Returns the result for a transaction that was not run, or aborted. Fails if an allocation failed.
pub(crate) fn response_of_error(error: RunError) -> Result<CallResult, AllocError>
    ensures response { IfOk result (λ response. response ≡ response_of_run (Err error)) }
    ensures code { IfOk result (λ response. (response.code ≢ 0) × (response.code ≢ 5)) }
    ensures memory { OnErr result (error ≡ RunError.Stopped Stop.NoMemory) }
{
    match error {
        RunError::Faulty(fault) => Ok(call_result(FAULTY, u64::from(fault.code()))),
        RunError::Stopped(Stop::NoMemory) => Err(AllocError),
        RunError::Stopped(stop) => Ok(call_result(STOPPED, u64::from(stop.code()))),
    }
}

/// Writes replies to the front of an array, as many as fit.
fn copy_replies(replies: &[Reply], out: &mut [CallResult])
    ensures replies { let count = min (length replies.now) (length out.old) in
        take count out.new ≡ map response_of (take count replies.now) }
    ensures length { length out.new ≡ length out.old }
{
    let count = replies.len().min(out.len());
    for place in 0..count {
        out[place] = tell(&replies[place]);
    }
}
