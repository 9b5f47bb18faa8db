// The requests to the transaction that is open in a domain, and what can be read of its channels.
ghost use Rattle.std.specs.Prelude.{◌≡◌, ◌≢◌, IfOk, IfErr, OnErr, take, min, map, length, drop};
ghost use Rattle.std.specs.Prelude.{option_copied};
ghost use Rattle.yalwythen_domain.specs.Channels.{is_closed_at, length_at, readers_at};
ghost use Rattle.yalwythen_domain.specs.Opening.{closed_response, length_response, readers_response};
ghost use Rattle.yalwythen_domain.specs.RawSteps.{HasItems, last_reply, reply_in};
ghost use Rattle.yalwythen_domain.specs.Requests.{HasAnswered, HasOpened, HasCommitted, HasGoneBack, HasReleased};
ghost use Rattle.yalwythen_domain.specs.Requests.{HasRolledBack, HasRunOperation, HasRunStep, HasSaved};
ghost use Rattle.yalwythen_domain.specs.Requests.{last_response, operation_in, status_after, step_of_request};

use crate::call_result::{
    CallResult, DONE, NO_REPLY, NO_SUCH, NOT_NOW, REJECTED, REPLIED, RETRY, STOPPED, call_result,
};
use crate::channels::{Channels, RunError};
use crate::domain::{State, TransactionStatus, response_of_error};
use crate::numbers::{cause_number, decl_numbered, step_numbered, tell};
use std::alloc::AllocError;
use std::mem;
use txc_base::{GREATEST_NUMBER, Item, Op, Reply, Stop, Tag};
use txc_chan::Log;
use txc_txn::{Ran, Receipt, StepOutcome};
use txc_txn_check::Step;

/// The number with which `items` reads the last reply of the open transaction.
const OF_OPEN: u64 = u64::MAX;

impl<K: Log> Channels<K> {
    /// Returns whether a channel is closed, or `None` if there is no such channel.
    fn is_closed(&self, chan: u16) -> Option<bool>
        ensures { result ≡ is_closed_at self.now chan }
    {
        if (chan as usize) >= self.kinds.len() {
            return None;
        }
        Some(self.plain.chan(chan).closed())
    }

    /// Returns how many readers a channel has, or `None` if there is no such channel.
    fn readers(&self, chan: u16) -> Option<u16>
        ensures { result ≡ readers_at self.now chan }
    {
        if (chan as usize) >= self.kinds.len() {
            return None;
        }
        Some(self.plain.chan(chan).readers())
    }

    /// Returns how many unread items a reader of a channel has, or `None` if there is no such reader. Fails only if an
    /// allocation fails.
    fn length(&self, chan: u16, reader: u16) -> Result<Option<u64>, Stop>
        ensures ok { IfOk result (λ found. found ≡ length_at self.now chan reader) }
        ensures err { IfErr result (λ stop. stop ≡ Stop.NoMemory) }
    {
        if (chan as usize) >= self.kinds.len() {
            return Ok(None);
        }
        let summary = self.plain.summary(chan)?;
        match summary.remaining.as_slice().get(reader as usize) {
            Some(items) => Ok(Some(items.as_slice().len() as u64)),
            None => Ok(None),
        }
    }

    /// Returns the last reply of the open transaction.
    fn last_reply(&self) -> Option<&Reply>
        ensures { option_copied result ≡ last_reply self.now.txn.trace.replies.items }
    {
        self.txn.trace.replies.as_slice().last()
    }
}

impl<K: Log> State<K> {
    /// Returns whether a channel is closed: code 0 with 1 or 0.
    pub(crate) fn is_closed(&self, chan: u64) -> CallResult
        ensures { result ≡ closed_response self.now.channels chan }
    {
        let Ok(chan) = u16::try_from(chan) else {
            return call_result(REJECTED, NO_SUCH);
        };
        match self.channels.is_closed(chan) {
            Some(closed) => call_result(DONE, u64::from(closed)),
            None => call_result(REJECTED, NO_SUCH),
        }
    }

    /// Returns how many readers a channel has: code 0 with that number, which is 1 for a queue.
    pub(crate) fn readers(&self, chan: u64) -> CallResult
        ensures { result ≡ readers_response self.now.channels chan }
    {
        let Ok(chan) = u16::try_from(chan) else {
            return call_result(REJECTED, NO_SUCH);
        };
        match self.channels.readers(chan) {
            Some(readers) => call_result(DONE, u64::from(readers)),
            None => call_result(REJECTED, NO_SUCH),
        }
    }

    /// Returns how many unread items a reader of a channel has: code 0 with that number.
    pub(crate) fn length(&self, chan: u64, reader: u64) -> Result<CallResult, AllocError>
        ensures { IfOk result (λ response. response ≡ length_response self.now.channels chan reader) }
    {
        let (Ok(chan), Ok(reader)) = (u16::try_from(chan), u16::try_from(reader)) else {
            return Ok(call_result(REJECTED, NO_SUCH));
        };
        match self.channels.length(chan, reader) {
            Ok(Some(length)) => Ok(call_result(DONE, length)),
            Ok(None) => Ok(call_result(REJECTED, NO_SUCH)),
            Err(_) => Err(AllocError),
        }
    }

    /// Opens a transaction of a seat.
    pub(crate) fn begin(&mut self, seat: u64) -> CallResult
        ensures { HasOpened seat self.old self.new result }
    {
        if seat >= self.tags.len() as u64 {
            return call_result(REJECTED, NO_SUCH);
        }
        if self.is_open() {
            return call_result(REJECTED, NOT_NOW);
        }
        let tag = self.tags[seat as usize];
        if tag.serial == GREATEST_NUMBER || self.clock == GREATEST_NUMBER {
            return call_result(STOPPED, u64::from(Stop::Worn.code()));
        }
        let recycled = mem::replace(&mut self.recycled, Receipt::blank(self.alloc));
        let stamp = self.clock.saturating_add(1);
        self.channels.begin(
            recycled,
            Tag {
                seat: tag.seat,
                serial: tag.serial,
                stamp,
            },
        );
        self.status = TransactionStatus::Open;
        call_result(DONE, 0)
    }

    /// Runs an operation of the open transaction. Returns the code of the reply plus 16, with the value of the reply.
    /// After a retry or a stop, or if an allocation fails, the transaction must be rolled back.
    fn run_operation(&mut self, op: &Op) -> Result<CallResult, AllocError>
        requires { self.old.status ≡ TransactionStatus.Open }
        ensures ok { IfOk result (λ response. HasRunOperation op.now self.old self.new response) }
        ensures code { IfOk result (λ response. response.code ≢ 5) }
        ensures err { OnErr result (HasRunOperation op.now self.old self.new (record { code = 5; value = 0 })) }
    {
        let ran = self.channels.apply(op);
        self.status = status_after(&ran);
        match ran {
            Ok(StepOutcome::Done) => Ok(self.last_reply()),
            Ok(StepOutcome::Retry(cause)) => Ok(call_result(RETRY, cause_number(cause))),
            Err(error) => response_of_error(error),
        }
    }

    /// Runs the operation whose number, channel and reader are in `a`, like `run_operation`.
    pub(crate) fn apply(&mut self, a: u64, body: u64) -> Result<CallResult, AllocError>
        ensures ok { IfOk result (λ response. HasRunStep (step_of_request a body) self.old self.new response) }
        ensures code { IfOk result (λ response. response.code ≢ 5) }
        ensures err { OnErr result (HasRunStep (step_of_request a body) self.old self.new
            (record { code = 5; value = 0 })) }
    {
        if !matches!(self.status, TransactionStatus::Open) {
            return Ok(call_result(REJECTED, NOT_NOW));
        }
        let Some(op) = operation_of(a, body) else {
            return Ok(call_result(REJECTED, NO_SUCH));
        };
        self.run_operation(&op)
    }

    /// Returns the last reply of the open transaction, with its code plus 16.
    fn last_reply(&self) -> CallResult
        ensures response { result ≡ last_response (last_reply self.now.channels.txn.trace.replies.items) }
        ensures code { result.code ≢ 5 }
    {
        match self.channels.last_reply() {
            Some(reply) => {
                let response = tell(reply);
                call_result(REPLIED + response.code, response.value)
            }
            None => call_result(NO_REPLY, 0),
        }
    }

    /// Sets a savepoint of the open transaction: code 0 with how many there are.
    pub(crate) fn set_savepoint(&mut self) -> Result<CallResult, AllocError>
        ensures ok { IfOk result (λ response. HasSaved self.old self.new response) }
        ensures code { IfOk result (λ response. response.code ≢ 5) }
        ensures err { OnErr result ((self.old.status ≡ TransactionStatus.Open) × (self.new ≡ self.old)) }
    {
        if !matches!(self.status, TransactionStatus::Open) {
            return Ok(call_result(REJECTED, NOT_NOW));
        }
        let count = self.channels.set_savepoint()?;
        Ok(call_result(DONE, count as u64))
    }

    /// Rolls the open transaction back to its last savepoint, and removes the savepoint: code 0 with how many are left.
    /// The transaction then goes on, even after a retry or a stop. The request is rejected with `NOT_NOW` if no
    /// transaction is open or if it has no savepoint.
    pub(crate) fn roll_back_to_savepoint(&mut self) -> CallResult
        ensures { HasGoneBack self.old self.new result }
    {
        if !self.is_open() || !self.channels.roll_back_to_savepoint() {
            return call_result(REJECTED, NOT_NOW);
        }
        self.status = TransactionStatus::Open;
        call_result(DONE, self.channels.savepoint_count() as u64)
    }

    /// Removes the last savepoint of the open transaction: code 0 with how many are left.
    pub(crate) fn release_savepoint(&mut self) -> CallResult
        ensures { HasReleased self.old self.new result }
    {
        if !self.is_open() || !self.channels.release_savepoint() {
            return call_result(REJECTED, NOT_NOW);
        }
        call_result(DONE, self.channels.savepoint_count() as u64)
    }

    /// Commits the open transaction: code 0 with how many replies it has.
    pub(crate) fn commit(&mut self) -> CallResult
        ensures { HasCommitted self.old self.new result }
    {
        if !matches!(self.status, TransactionStatus::Open) {
            return call_result(REJECTED, NOT_NOW);
        }
        self.status = TransactionStatus::Idle;
        let receipt = self.channels.commit();
        let seat = u64::from(receipt.tag.seat);
        self.note(seat, Ran::Kept(receipt))
    }

    /// Rolls the open transaction back.
    pub(crate) fn roll_back(&mut self) -> CallResult
        ensures { HasRolledBack self.old self.new result }
    {
        if !self.is_open() {
            return call_result(REJECTED, NOT_NOW);
        }
        self.status = TransactionStatus::Idle;
        self.channels.roll_back();
        call_result(DONE, 0)
    }

    /// Writes the bodies of the items of a reply of the last committed transaction, or of the last reply of the open
    /// one if `reply` is `OF_OPEN`, from item `from` on, to the front of `out`, as many as fit. Returns code 0 with how
    /// many items there are.
    pub(crate) fn items(&self, reply: u64, from: u64, out: &mut [u64]) -> CallResult
        ensures { HasItems (reply_in self.now reply) from out.old out.new result }
    {
        let found = if reply == OF_OPEN {
            self.channels.last_reply()
        } else {
            self.last.replies.get(reply as usize)
        };
        match found {
            Some(Reply::All(items)) => {
                copy_bodies(items.as_slice(), from, out);
                call_result(DONE, items.as_slice().len() as u64)
            }
            _ => call_result(NO_REPLY, 0),
        }
    }

    /// Performs the request with the number `request`.
    pub(crate) fn ask(&mut self, request: u64, a: u64, b: u64) -> Result<CallResult, AllocError>
        ensures ok { IfOk result (λ response. HasAnswered request a b K.shelves self.old self.new response) }
        ensures err { OnErr result (HasAnswered request a b K.shelves self.old self.new
            (record { code = 5; value = 0 })) }
    {
        match request {
            0 => self.declare(decl_numbered(a, b)),
            1 => self.add_seat(),
            2 => Ok(self.reply(a)),
            3 => Ok(self.count(a)),
            4 => self.length(a, b),
            5 => Ok(self.is_closed(a)),
            6 => Ok(self.begin(a)),
            7 => self.apply(a, b),
            8 => self.set_savepoint(),
            9 => Ok(self.roll_back_to_savepoint()),
            10 => Ok(self.release_savepoint()),
            11 => Ok(self.commit()),
            12 => Ok(self.roll_back()),
            13 => Ok(self.readers(a)),
            _ => Ok(call_result(REJECTED, NO_SUCH)),
        }
    }
}

/// Returns the status of the open transaction after an operation. After a retry or a stop it must be rolled back.
fn status_after(ran: &Result<StepOutcome, RunError>) -> TransactionStatus
    ensures { result ≡ status_after ran.now }
{
    match ran {
        Ok(StepOutcome::Done) => TransactionStatus::Open,
        Ok(StepOutcome::Retry(_)) => TransactionStatus::Failed,
        Err(RunError::Faulty(_)) => TransactionStatus::Open,
        Err(RunError::Stopped(_)) => TransactionStatus::Failed,
    }
}

/// Returns the operation whose number, channel and reader are in `a`, the lowest bits first, if there is one.
fn operation_of(a: u64, body: u64) -> Option<Op>
    ensures { result ≡ operation_in (step_of_request a body) }
{
    let (number, chan, reader) = (a % (1 << 32), (a >> 32) % (1 << 16), a >> 48);
    match step_numbered(number as u32, chan as u16, reader as u16, body) {
        Some(Step::Do(op)) => Some(op),
        _ => None,
    }
}

/// Writes the bodies of items from this place on to the front of an array, as many as fit.
fn copy_bodies(items: &[Item], from: u64, out: &mut [u64])
    ensures { let rest = drop from (map (λ item. item.body) items.now) in
        let count = min (length rest) (length out.old) in take count out.new ≡ take count rest }
{
    let from = from as usize;
    let count = items.len().saturating_sub(from).min(out.len());
    for place in 0..count {
        out[place] = items[from + place].body;
    }
}
