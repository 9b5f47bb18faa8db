// The transaction that is open on the channels of a domain.
ghost use Rattle.std.specs.Prelude.{◌≡◌, ◌<◌, List, [], ◌∷◌, ◌++◌, IfOk, IfErr, OnOk, OnErr, length};
ghost use Rattle.std.specs.Prelude.{slice_get, false, true};
ghost use Rattle.txc_base.specs.declared.op.Op.{Op as Ops};
ghost use Rattle.txc_base.specs.Kinds.{supports};
ghost use Rattle.txc_base.specs.Op.{chan_of};
ghost use Rattle.txc_txn_check.specs.Walk.{Faulty, Fine, walk_op};
ghost use Rattle.txc_txn.specs.declared.open_savepoint.OpenSavepoint.{OpenSavepoint as Points};
ghost use Rattle.txc_txn.specs.declared.trace.Trace.{Trace as Traces};
ghost use Rattle.txc_txn.specs.Maps.{Map, settle_all};
ghost use Rattle.txc_txn.specs.OpenTransaction.{IsMarkedSince};
ghost use Rattle.txc_txn.specs.Plain.{chan_in};
ghost use Rattle.txc_txn.specs.Run.{receipt_of, state_of};
ghost use Rattle.yalwythen_domain.specs.Opened.{HasApplied, IfFaulty, IsOpenAt, IsRolledBackTo, IsSavedAt, untallied};
ghost use Rattle.yalwythen_domain.specs.Requests.{HasPoint};

use crate::channels::{Channels, NO_TAG, RunError};
use std::alloc::AllocError;
use std::mem;
use txc_base::{Op, Tag, allowed, names_its_reader};
use txc_chan::{Log, NonBlocking};
use txc_txn::{OpenTransaction, Receipt, StepOutcome};
use txc_txn_check::TxnFault;

impl<K: Log> Channels<K> {
    /// Opens a transaction that commits under this tag, in the memory of the receipt `recycled`.
    pub(crate) fn begin(&mut self, recycled: Receipt, tag: Tag)
        ensures open { IsOpenAt (chan_in self.old.held) [] self.new }
        ensures tag { self.new.txn.tag ≡ tag }
        ensures savepoints { self.new.savepoints ≡ [] }
        ensures rest { (self.new.held ≡ self.old.held) × (self.new.kinds ≡ self.old.kinds) }
    {
        self.savepoints.clear();
        self.txn = OpenTransaction::begin(self.alloc, recycled, tag);
    }

    /// Returns the first fault of an operation, if it has one: its channel is not there, or has no such operation, or
    /// is a queue and the operation is another reader's. Does not allocate.
    pub(crate) fn check(&self, op: &Op) -> Result<(), TxnFault>
        ensures there { OnOk result (chan_of op.now < length self.now.kinds) }
        ensures ok { OnOk result (supports (chan_in self.now.held (chan_of op.now)).decl.kind op.now ≡ true) }
        ensures fine { OnOk result (walk_op (slice_get self.now.kinds) op.now untallied
            ≡ Fine (record { operations = 1; channels = chan_of op.now ∷ [] })) }
        ensures err { IfErr result (λ fault. walk_op (slice_get self.now.kinds) op.now untallied ≡ Faulty fault) }
    {
        let Some(kind) = self.kinds.get(op.chan() as usize) else {
            return Err(TxnFault::NoChannel);
        };
        if !allowed(*kind, op) {
            return Err(TxnFault::NotForKind);
        }
        if !names_its_reader(*kind, op) {
            return Err(TxnFault::NoReader);
        }
        Ok(())
    }

    /// Runs an operation of the open transaction. Returns whether it ran or must be retried; fails with the first fault
    /// of the operation, with its stop, or with `NoMemory` if an allocation fails. After a retry or a stop the
    /// transaction must be rolled back; after a fault nothing is done.
    pub(crate) fn apply(&mut self, op: &Op) -> Result<StepOutcome, RunError>
        ensures applied { HasApplied op.now result self.old self.new }
        ensures faulty { IfErr result (λ error. IfFaulty error (λ fault.
            walk_op (slice_get self.old.kinds) op.now untallied ≡ Faulty fault)) }
        ensures marked { (began : Map) → IsMarkedSince [] self.old.txn began (chan_in self.old.held)
            → IsMarkedSince [] self.new.txn began (chan_in self.new.held) }
        ensures goes_on { (began : Map) (ops : List Ops) → IsOpenAt began ops self.old
            → IfOk result (λ flow. flow ≡ StepOutcome.Done → IsOpenAt began (ops ++ op.now ∷ []) self.new) }
        ensures saved { (savepoint : Points) (at : Map) (trace : Traces) → IsSavedAt savepoint at trace self.old
            → IsSavedAt savepoint at trace self.new }
        ensures rest { (self.new.kinds ≡ self.old.kinds) × (self.new.txn.tag ≡ self.old.txn.tag)
            × (self.new.savepoints ≡ self.old.savepoints) }
    {
        if let Err(fault) = self.check(op) {
            return Err(RunError::Faulty(fault));
        }
        match self.txn.apply(&NonBlocking, &mut self.plain, op) {
            Ok(flow) => Ok(flow),
            Err(stop) => Err(RunError::Stopped(stop)),
        }
    }

    /// Sets a savepoint, and returns how many there are. If an allocation fails, nothing is changed.
    pub(crate) fn set_savepoint(&mut self) -> Result<usize, AllocError>
        ensures rest { (self.new.held ≡ self.old.held) × (self.new.kinds ≡ self.old.kinds)
            × (self.new.txn ≡ self.old.txn) }
        ensures ok { IfOk result (λ count. count ≡ length self.new.savepoints) }
        ensures savepoint { OnOk result (HasPoint self.old self.new) }
        ensures unchanged { OnErr result (self.new.savepoints ≡ self.old.savepoints) }
    {
        let savepoint = self.txn.savepoint(self.alloc, &mut self.plain)?;
        self.savepoints.push(savepoint)?;
        Ok(self.savepoints.len())
    }

    /// Undoes the operations since the last savepoint, and removes the savepoint. Returns whether there was one.
    pub(crate) fn roll_back_to_savepoint(&mut self) -> bool
        ensures done { (savepoints : List Points) (savepoint : Points) → self.old.savepoints ≡ savepoints
            ++ savepoint ∷ []
            → (result ≡ true) × (self.new.savepoints ≡ savepoints) }
        ensures back { (savepoints : List Points) (savepoint : Points) → self.old.savepoints ≡ savepoints
            ++ savepoint ∷ [] → IsRolledBackTo savepoint self.old self.new }
        ensures none { self.old.savepoints ≡ [] → (result ≡ false) × (self.new ≡ self.old) }
        ensures rest { (self.new.kinds ≡ self.old.kinds) × (self.new.txn.tag ≡ self.old.txn.tag) }
    {
        match self.savepoints.pop() {
            Some(savepoint) => {
                self.txn.roll_back_to(&mut self.plain, &savepoint);
                true
            }
            None => false,
        }
    }

    /// Returns how many savepoints there are.
    pub(crate) fn savepoint_count(&self) -> usize
        ensures { result ≡ length self.now.savepoints }
    {
        self.savepoints.len()
    }

    /// Removes the last savepoint. Returns whether there was one.
    pub(crate) fn release_savepoint(&mut self) -> bool
        ensures done { (savepoints : List Points) (savepoint : Points) → self.old.savepoints ≡ savepoints
            ++ savepoint ∷ []
            → (result ≡ true) × (self.new.savepoints ≡ savepoints) }
        ensures none { self.old.savepoints ≡ [] → (result ≡ false) × (self.new ≡ self.old) }
        ensures rest { (self.new.held ≡ self.old.held) × (self.new.kinds ≡ self.old.kinds)
            × (self.new.txn ≡ self.old.txn) }
    {
        self.savepoints.pop().is_some()
    }

    /// Commits the open transaction and returns its receipt.
    pub(crate) fn commit(&mut self) -> Receipt
        ensures receipt { (m : Map) → result ≡ receipt_of self.old.txn.tag (state_of m self.old.txn.trace) }
        ensures settled { chan_in self.new.held
            ≡ settle_all (chan_in self.old.held) self.old.txn.tag.stamp self.old.txn.touched.items }
        ensures kinds { self.new.kinds ≡ self.old.kinds }
    {
        self.savepoints.clear();
        let none = OpenTransaction::begin(self.alloc, Receipt::blank(self.alloc), NO_TAG);
        mem::replace(&mut self.txn, none).commit(&mut self.plain)
    }

    /// Undoes the open transaction and removes its savepoints. No transaction is open afterwards.
    pub(crate) fn roll_back(&mut self)
        ensures back { (began : Map) → IsMarkedSince [] self.old.txn began (chan_in self.old.held)
            → chan_in self.new.held ≡ began }
        ensures kinds { self.new.kinds ≡ self.old.kinds }
    {
        self.savepoints.clear();
        let none = OpenTransaction::begin(self.alloc, Receipt::blank(self.alloc), NO_TAG);
        mem::replace(&mut self.txn, none).roll_back(&mut self.plain);
    }
}
