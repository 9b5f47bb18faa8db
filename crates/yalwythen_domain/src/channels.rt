// The channels of a domain, and the transactions on them.
ghost use Rattle.std.specs.Prelude.{◌≡◌, ◌≢◌, ◌<◌, ◌↔◌, ℕ, IsTrue, None, Some, [], ◌++◌, ◌∷◌, length, map};
ghost use Rattle.std.specs.Prelude.{slice_get, ◌+◌, Ok, false, IfOk, OnOk, OnErr, IfErr};
ghost use Rattle.txc_chan.specs.Limits.{declared_fault};
ghost use Rattle.txc_chan.specs.Logged.{opened};
ghost use Rattle.txc_txn_check.specs.declared.step.Step.TheVariants.{Do};
ghost use Rattle.txc_txn_check.specs.Walk.{Fine, Tally, walk};
ghost use Rattle.txc_txn.specs.declared.ran.Ran.TheVariants.{Kept as RanKept};
ghost use Rattle.txc_txn.specs.AtOnce.{IsImmediate};
ghost use Rattle.txc_txn.specs.Opening.{HasKinds};
ghost use Rattle.txc_txn.specs.Plain.{chan_in};
ghost use Rattle.yalwythen_domain.specs.Accounts.{account_at};
ghost use Rattle.yalwythen_domain.specs.Channels.{count_at};
ghost use Rattle.yalwythen_domain.specs.Ending.{ComesOfSteps};
ghost use Rattle.yalwythen_domain.specs.Single.{list_of_steps};

use crate::raw_steps::Steps;
use std::alloc::{AllocError, Global};
use std::marker::Model;
use txc_base::{Kind, Op, Stop, Tag};
use txc_chan::{Account, ChanFault, Decl, FullLog, Log, NonBlocking};
use txc_txn::{OpenSavepoint, OpenTransaction, Plain, Ran, Receipt, run_held_reusing, run_one};
use txc_txn_check::{Checked, Step, TxnFault};

/// Why a transaction was not run, or aborted.
#[derive(Debug, Clone, Copy)]
pub(crate) enum RunError {
    Faulty(TxnFault),
    Stopped(Stop),
}

/// The channels of a domain, and the transaction that is open on them. If none is open, `txn` has touched no channel.
#[derive(Drop)]
pub struct Channels<K: Log> {
    pub(crate) alloc: Global,
    pub(crate) plain: Plain<K>,
    // Each transaction is checked against these kinds.
    pub(crate) kinds: Vec<Kind>,
    pub(crate) txn: OpenTransaction,
    pub(crate) savepoints: Vec<OpenSavepoint>,
}

impl<K: Log> Model for Channels<K> {
    ghost use Rattle.yalwythen_domain.specs.Channels.{DomainChannels};
    ghost use Rattle.yalwythen_domain.specs.Opened.{IsConsistent};

    ghost Value = { DomainChannels };

    ghost view = { λ channels. record {
      held = channels.plain;
      kinds = channels.kinds.items;
      txn = channels.txn;
      savepoints = channels.savepoints.items;
    } };

    ghost invariant = { λ channels. IsConsistent channels.plain channels.kinds.items channels.txn };
}

/// The tag of `Channels::txn` while no transaction is open.
pub(crate) const NO_TAG: Tag = Tag {
    seat: 0,
    serial: 0,
    stamp: 0,
};

/// Runs steps as one transaction on channels of these kinds, like `Channels::run`.
fn run_on<K: Log>(
    plain: &mut Plain<K>,
    kinds: &[Kind],
    recycled: Receipt,
    tag: Tag,
    steps: Vec<Step>,
) -> Result<Ran, RunError>
    requires { HasKinds plain.old kinds.now }
    ensures comes { ComesOfSteps (walk (slice_get kinds.now) steps.items) tag steps.items result
        (chan_in plain.old) (chan_in plain.new) }
    ensures kinds { HasKinds plain.new kinds.now }
    ensures held { (n : ℕ) → n < length plain.old → n < length plain.new }
{
    let checked = match Checked::check(steps, kinds) {
        Ok(checked) => checked,
        Err(fault) => return Err(RunError::Faulty(fault)),
    };
    checked.show_fits(kinds);
    match run_held_reusing(&NonBlocking, recycled, plain, tag, &checked) {
        Ok(ran) => Ok(ran),
        Err(stop) => Err(RunError::Stopped(stop)),
    }
}

impl<K: Log> Channels<K> {
    /// Creates an empty list of channels.
    pub(crate) fn new(alloc: Global) -> Channels<K>
        ensures held { result.held ≡ [] }
        ensures kinds { result.kinds ≡ [] }
        ensures savepoints { result.savepoints ≡ [] }
    {
        Channels {
            alloc,
            plain: Plain::new(alloc),
            kinds: Vec::new(alloc),
            txn: OpenTransaction::begin(alloc, Receipt::blank(alloc), NO_TAG),
            savepoints: Vec::new(alloc),
        }
    }

    /// Adds an open and empty channel, and returns its number. Fails with the fault of its declaration, or `NoMemory`
    /// if an allocation fails; the channels are then unchanged.
    pub(crate) fn declare(&mut self, decl: Decl) -> Result<u16, ChanFault>
        requires few { length self.old.kinds < 65536 }
        ensures ok { OnOk result (map (λ held. held.logged) self.new.held
            ≡ map (λ held. held.logged) self.old.held ++ opened decl ∷ []) }
        ensures number { IfOk result (λ number. number ≡ length self.old.kinds) }
        ensures count { OnOk result (length self.new.kinds ≡ length self.old.kinds + 1) }
        ensures fine { OnOk result (declared_fault decl.kind decl.bound decl.readers ≡ None) }
        ensures err { IfErr result (λ fault. fault ≢ ChanFault.NoMemory
            → declared_fault decl.kind decl.bound decl.readers ≡ Some fault) }
        ensures unchanged { OnErr result (self.new ≡ self.old) }
        ensures rest { (self.new.txn ≡ self.old.txn) × (self.new.savepoints ≡ self.old.savepoints) }
    {
        let number = self.kinds.len() as u16;
        self.kinds.reserve(1)?;
        self.plain.push(self.alloc, decl)?;
        let kind = self.plain.chan(number).kind();
        self.kinds.push_reserved(kind);
        Ok(number)
    }

    /// Returns how many channels there are.
    pub(crate) fn len(&self) -> usize
        ensures { result ≡ length self.now.kinds }
    {
        self.kinds.len()
    }

    /// Returns whether there is a channel of this number.
    fn is_there(&self, chan: u16) -> bool
        ensures { IsTrue result ↔ chan < length self.now.kinds }
    {
        (chan as usize) < self.kinds.len()
    }

    /// Returns how many acts were done on a channel since it was declared, or `None` if there is no such channel.
    pub(crate) fn count(&self, chan: u16) -> Option<u64>
        ensures { result ≡ count_at self.now chan }
    {
        if !self.is_there(chan) {
            return None;
        }
        Some(self.plain.chan(chan).log_len() as u64)
    }

    /// Commits an operation as one transaction at once, with the tag of the seat's last one, if that is a write or a
    /// read, has no fault and has an act. Returns true if it committed: the receipt is then `last`. Fails only if an
    /// allocation fails. If it does not return true, nothing is changed.
    pub(crate) fn commit_one(
        &mut self,
        tag: Tag,
        op: &Op,
        last: &mut Receipt,
    ) -> Result<bool, AllocError>
        ensures comes { let steps = Do op.now ∷ [] in IfOk result (λ is. IsTrue is
            → ComesOfSteps (walk (slice_get self.old.kinds) steps) tag steps (Ok (RanKept last.new))
            (chan_in self.old.held) (chan_in self.new.held)) }
        ensures left { IfOk result (λ is. is ≡ false
            → (chan_in self.new.held ≡ chan_in self.old.held) × (last.new ≡ last.old)) }
        ensures once { (tally : Tally) → walk (slice_get self.old.kinds) (Do op.now ∷ []) ≡ Fine tally
            → IfOk result (λ is. IsImmediate (chan_in self.old.held) tag op.now → IsTrue is) }
        ensures unchanged { OnErr result ((chan_in self.new.held ≡ chan_in self.old.held) × (last.new ≡ last.old)) }
        ensures kinds { self.new.kinds ≡ self.old.kinds }
        ensures rest { (self.new.txn ≡ self.old.txn) × (self.new.savepoints ≡ self.old.savepoints) }
    {
        if let Err(_) = self.check(op) {
            return Ok(false);
        }
        self.plain.commit_one(self.alloc, tag, op, last)
    }

    /// Runs an operation as one transaction, like `run_many` with this only step. The tag is that of the seat's last
    /// transaction, and the new receipt reuses the memory of `recycled`.
    fn run_one(&mut self, recycled: Receipt, tag: Tag, op: &Op) -> Result<Ran, RunError>
        ensures comes { let steps = Do op.now ∷ [] in ComesOfSteps (walk (slice_get self.old.kinds) steps) tag steps
            result (chan_in self.old.held) (chan_in self.new.held) }
        ensures kinds { self.new.kinds ≡ self.old.kinds }
        ensures rest { (self.new.txn ≡ self.old.txn) × (self.new.savepoints ≡ self.old.savepoints) }
    {
        if let Err(fault) = self.check(op) {
            return Err(RunError::Faulty(fault));
        }
        match run_one(&NonBlocking, recycled, &mut self.plain, tag, op) {
            Ok(ended) => Ok(ended),
            Err(why) => Err(RunError::Stopped(why)),
        }
    }

    /// Runs steps as one transaction like `run`.
    fn run_many(&mut self, recycled: Receipt, tag: Tag, steps: Vec<Step>) -> Result<Ran, RunError>
        ensures comes { ComesOfSteps (walk (slice_get self.old.kinds) steps.items) tag steps.items result
            (chan_in self.old.held) (chan_in self.new.held) }
        ensures kinds { self.new.kinds ≡ self.old.kinds }
        ensures rest { (self.new.txn ≡ self.old.txn) × (self.new.savepoints ≡ self.old.savepoints) }
    {
        run_on(&mut self.plain, self.kinds.as_slice(), recycled, tag, steps)
    }

    /// Runs steps as one transaction with the tag of the seat's last one, in the memory of the receipt `recycled`.
    /// Fails with the first fault that a check of the steps finds, or with the stop if the transaction aborts. After a
    /// retry or an error the channels are unchanged.
    pub(crate) fn run(&mut self, recycled: Receipt, tag: Tag, steps: Steps) -> Result<Ran, RunError>
        ensures comes { ComesOfSteps (walk (slice_get self.old.kinds) (list_of_steps steps)) tag (list_of_steps steps)
            result (chan_in self.old.held) (chan_in self.new.held) }
        ensures kinds { self.new.kinds ≡ self.old.kinds }
        ensures rest { (self.new.txn ≡ self.old.txn) × (self.new.savepoints ≡ self.old.savepoints) }
    {
        match steps {
            Steps::One(op) => self.run_one(recycled, tag, &op),
            Steps::Many(steps) => self.run_many(recycled, tag, steps),
        }
    }
}

impl Channels<FullLog> {
    /// Returns the account of a channel, or `None` if there is no such channel. Fails only if an allocation fails.
    pub(crate) fn account(&self, chan: u16) -> Result<Option<Account>, Stop>
        ensures account { IfOk result (λ account. account ≡ account_at self.now chan) }
        ensures err { IfErr result (λ stop. stop ≡ Stop.NoMemory) }
    {
        if !self.is_there(chan) {
            return Ok(None);
        }
        Ok(Some(self.plain.account(chan)?))
    }
}
