// A channel for values of one type.
ghost use Rattle.std.specs.Prelude.{◌≡◌, ◌∷◌, [], ℕ, slice_get, IfErr, IfOk, OnErr};
ghost use Rattle.txc_base.specs.declared.op.Op.{Op};
ghost use Rattle.txc_base.specs.declared.source.Source.{Source};
ghost use Rattle.txc_txn_check.specs.declared.step.Step.{Step};
ghost use Rattle.yalwythen_work.specs.Committed.{HasCommittedSteps, HasFailedWith, found_closed, replies_in};
ghost use Rattle.yalwythen_work.specs.ReadOutcome.{IsOfRead, is_end};
ghost use Rattle.yalwythen_work.specs.SendOutcome.{was_closed};

use crate::answers::{found_closed, last_item};
use crate::read_outcome::ReadOutcome;
use crate::recording::Recording;
use crate::send_outcome::{SendError, SendOutcome};
use crate::session::Session;
use crate::transact_error::TransactError;
use std::alloc::AllocFailed;
use std::sync::Wait;
use txc_base::{Item, Op, Source};
use txc_txn_check::Step;
use yalwythen_payloads::Payloads;

/// A channel for values of one type. Each value is stored in `Payloads`, and the channel carries its key. All ends of
/// one channel must use the same payloads. Several channels can share them. On a broadcast channel with several
/// readers, only the reader that opens an item first gets its value.
#[derive(Drop)]
pub struct TypedChannel<'a, V: Drop> {
    payloads: &'a Payloads<V>,
    chan: u16,
}

impl<'a, V: Drop> TypedChannel<'a, V> {
    /// Makes an end of the channel with this number, whose values are in these payloads.
    pub fn new(payloads: &'a Payloads<V>, chan: u16) -> TypedChannel<'a, V>
        ensures { result.chan ≡ chan }
    {
        TypedChannel { payloads, chan }
    }

    /// Returns the number of the channel.
    pub fn chan(&self) -> u16
        ensures { result ≡ self.now.chan }
    {
        self.chan
    }

    /// Returns the step that reads the next item, for a transaction of several steps. `open` then returns the value of
    /// the item.
    pub fn reading(&self) -> Step
        ensures { result ≡ Step.Do (Op.Read self.now.chan 0) }
    {
        Step::Do(Op::Read {
            chan: self.chan,
            reader: 0,
        })
    }

    /// Takes out and returns the value of an item that was read from the channel. Returns `None` if the item was opened
    /// before, or is not an item of the channel. Blocks on the lock of the payloads.
    pub fn open<R: Wait>(&self, rt: &R, item: Item) -> Option<V> {
        self.payloads.open(rt, &item)
    }

    /// Returns the step that writes the payload with this key.
    fn write_of(&self, key: u64) -> Step
        ensures { result ≡ Step.Do (Op.Write self.now.chan (Source.Lit key)) }
    {
        Step::Do(Op::Write {
            chan: self.chan,
            body: Source::Lit(key),
        })
    }

    /// Stores this value and returns the step that writes its key, for a transaction of several steps. The value stays
    /// among the payloads, whether or not the step commits. If allocation fails, returns the value in the error. Blocks
    /// on the lock of the payloads.
    pub fn writing<R: Wait>(&self, rt: &R, value: V) -> Result<Step, AllocFailed<V>>
        ensures step { IfOk result (λ step. (key : ℕ) × (step ≡ Step.Do (Op.Write self.now.chan (Source.Lit key)))) }
        ensures back { IfErr result (λ refused. refused.value ≡ value) }
    {
        let key = self.payloads.put(rt, value)?;
        Ok(self.write_of(key))
    }

    /// Writes the payload with this key in a transaction of its own, and returns the number of the receipt.
    fn send<R: Wait, K: Recording>(
        &self,
        rt: &R,
        session: &mut Session<'_, K>,
        key: u64,
    ) -> Result<usize, TransactError>
        ensures committed { IfOk result (λ number.
            HasCommittedSteps session.old (Step.Do (Op.Write self.now.chan (Source.Lit key)) ∷ []) number session.new) }
        ensures failed { IfErr result
            (HasFailedWith session.old (Step.Do (Op.Write self.now.chan (Source.Lit key)) ∷ [])) }
        ensures same { OnErr result (session.new ≡ session.old) }
    {
        let steps = Vec::from_array(session.alloc(), [self.write_of(key)])?;
        session.transact(rt, steps)
    }

    /// Writes a value in a transaction of its own. Returns `SendOutcome::Written` if the value is in the channel. If
    /// the channel is closed, the transaction commits with the reply `Reply::Closed`, and `SendOutcome::Closed` returns
    /// the value.
    ///
    /// If the transaction does not commit, the session is unchanged and the error has the value and the reason. Waits
    /// like `Session::run` while the channel is full, and blocks on the lock of the payloads.
    pub fn write<R: Wait, K: Recording>(
        &self,
        rt: &R,
        session: &mut Session<'_, K>,
        value: V,
    ) -> Result<SendOutcome<V>, SendError<V>>
        ensures committed { IfOk result (λ sent. (key number : ℕ)
            × HasCommittedSteps session.old (Step.Do (Op.Write self.now.chan (Source.Lit key)) ∷ []) number session.new
            × (was_closed sent ≡ found_closed (replies_in (slice_get session.new.seat.receipts number)))) }
        ensures failed { IfErr result (λ unsent. (key : ℕ)
            × HasFailedWith session.old (Step.Do (Op.Write self.now.chan (Source.Lit key)) ∷ []) unsent.error) }
        ensures same { OnErr result (session.new ≡ session.old) }
    {
        let key = match self.payloads.put(rt, value) {
            Ok(key) => key,
            Err(AllocFailed { value }) => return Err(SendError::without_memory(value)),
        };
        let number = match self.send(rt, session, key) {
            Ok(number) => number,
            Err(error) => {
                let value = self.payloads.take(rt, key);
                return Err(SendError { value, error });
            }
        };
        if found_closed(session.replies_of(number)) {
            return Ok(SendOutcome::Closed(self.payloads.take(rt, key)));
        }
        Ok(SendOutcome::Written)
    }

    /// Reads the next value in a transaction of its own. Returns `ReadOutcome::Value` with the value. Returns
    /// `ReadOutcome::Opened` if the item has no value, for instance because it was opened before. Returns
    /// `ReadOutcome::Closed` once the channel is closed and empty.
    ///
    /// If the transaction does not commit, returns the `TransactError`, and the session is unchanged. Waits like
    /// `Session::run` while the channel is empty, and blocks on the lock of the payloads.
    pub fn read<R: Wait, K: Recording>(
        &self,
        rt: &R,
        session: &mut Session<'_, K>,
    ) -> Result<ReadOutcome<V>, TransactError>
        ensures committed { IfOk result (λ received. (number : ℕ)
            × HasCommittedSteps session.old (Step.Do (Op.Read self.now.chan 0) ∷ []) number session.new
            × IsOfRead (is_end received) (replies_in (slice_get session.new.seat.receipts number))) }
        ensures failed { IfErr result (HasFailedWith session.old (Step.Do (Op.Read self.now.chan 0) ∷ [])) }
        ensures same { OnErr result (session.new ≡ session.old) }
    {
        let steps = Vec::from_array(session.alloc(), [self.reading()])?;
        let number = session.transact(rt, steps)?;
        match last_item(session.replies_of(number)) {
            Some(item) => Ok(ReadOutcome::opened(self.open(rt, item))),
            None => Ok(ReadOutcome::Closed),
        }
    }
}
