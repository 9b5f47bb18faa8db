// The transactions that a worker committed.
ghost use Rattle.std.specs.Prelude.{◌≡◌, ◌≤◌, ◌<◌, [], ◌∷◌, ◌++◌, length, slice_get, slice_index_or, Some, IsTrue, ◌↔◌};
ghost use Rattle.std.specs.Prelude.{IfOk, IfSome, IfNone, OnOk, OnErr};
ghost use Rattle.txc_table_audit.specs.ReceiptKeys.{no_plan};
ghost use Rattle.yalwythen_work.specs.Plans.{noted};

use std::alloc::{AllocError, Global};
use std::marker::Model;
use txc_txn_check::Checked;

/// A committed transaction, as an index into one of two lists. So a transaction that is run often takes two words each
/// time.
#[derive(Debug, Clone, Copy)]
pub(crate) enum PlanIndex {
    /// The transaction with this number in the list of transactions that are run once.
    Once(usize),
    /// The prepared transaction with this number.
    Prepared(usize),
}

/// The transactions that a worker committed, in order, for the audit. A prepared transaction is stored once, however
/// often it was committed.
#[derive(Debug, Drop)]
pub struct Plans {
    prepared: Vec<Checked>,
    once: Vec<Checked>,
    kept: Vec<PlanIndex>,
    // Whether committed transactions are noted.
    audited: bool,
}

impl Model for Plans {
    ghost use Rattle.std.specs.Coded.{codes};
    ghost use Rattle.std.specs.Prelude.{◌-◌, All, length, map, vec_len, vec_capacity};
    ghost use Rattle.txc_txn_check.specs.contracts.step.Step as step;
    ghost use Rattle.yalwythen_work.specs.Plans.{PlansView, IsThere, plan_of};

    ghost Value = { PlansView };

    // Only for the proof: values of `Value` have a code, because the steps in them have one.
    ghost coded = { Prim.hlevel (codes, step.the_row.coded) };

    ghost view = { λ plans. record {
      prepared = plans.prepared.items;
      kept = map (plan_of plans.prepared.items plans.once.items) plans.kept.items;
      audited = plans.audited;
      room = vec_capacity plans.kept - vec_len plans.kept;
      room_once = vec_capacity plans.once - vec_len plans.once;
    } };

    ghost invariant = { λ plans.
        All (IsThere (length plans.prepared.items) (length plans.once.items)) plans.kept.items };
}

impl Plans {
    /// Makes an empty list. If `audited` is false, committed transactions are not noted.
    pub(crate) fn new(alloc: Global, audited: bool) -> Plans
        ensures prepared { result.prepared ≡ [] }
        ensures kept { result.kept ≡ [] }
        ensures audited { result.audited ≡ audited }
    {
        Plans {
            prepared: Vec::new(alloc),
            once: Vec::new(alloc),
            kept: Vec::new(alloc),
            audited,
        }
    }

    /// Stores a prepared transaction and returns its number, from 0. If allocation fails, nothing changes.
    pub(crate) fn prepare(&mut self, plan: Checked) -> Result<usize, AllocError>
        ensures number { IfOk result (λ number. number ≡ length self.old.prepared) }
        ensures prepared { OnOk result (self.new.prepared ≡ self.old.prepared ++ plan ∷ []) }
        ensures same { OnErr result (self.new.prepared ≡ self.old.prepared) }
        ensures kept { self.new.kept ≡ self.old.kept }
        ensures audited { self.new.audited ≡ self.old.audited }
    {
        let number = self.prepared.len();
        self.prepared.reserve(1)?;
        self.prepared.push_reserved(plan);
        Ok(number)
    }

    /// Returns the prepared transaction with this number, or `None` if there is none.
    pub(crate) fn prepared(&self, number: usize) -> Option<&Checked>
        ensures some { IfSome result (λ plan. slice_get self.now.prepared number ≡ Some plan.now) }
        ensures none { IfNone result (length self.now.prepared ≤ number) }
    {
        self.prepared.as_slice().get(number)
    }

    /// Reserves capacity to note one more commit of a prepared transaction. Allocates only if commits are noted.
    pub(crate) fn reserve_prepared(&mut self) -> Result<(), AllocError>
        ensures room { OnOk result (IsTrue self.new.audited → 0 < self.new.room) }
        ensures prepared { self.new.prepared ≡ self.old.prepared }
        ensures kept { self.new.kept ≡ self.old.kept }
        ensures audited { self.new.audited ≡ self.old.audited }
    {
        if self.audited {
            self.kept.reserve(1)?;
        }
        Ok(())
    }

    /// Reserves capacity to note one more commit of a transaction that is run once. Allocates only if commits are
    /// noted.
    pub(crate) fn reserve(&mut self) -> Result<(), AllocError>
        ensures room { OnOk result (IsTrue self.new.audited → 0 < self.new.room) }
        ensures once { OnOk result (IsTrue self.new.audited → 0 < self.new.room_once) }
        ensures prepared { self.new.prepared ≡ self.old.prepared }
        ensures kept { self.new.kept ≡ self.old.kept }
        ensures audited { self.new.audited ≡ self.old.audited }
    {
        if self.audited {
            self.kept.reserve(1)?;
            self.once.reserve(1)?;
        }
        Ok(())
    }

    /// Notes the commit of a transaction that is run once, if commits are noted. There must be capacity for it.
    pub(crate) fn note(&mut self, plan: Checked)
        requires room { IsTrue self.old.audited → 0 < self.old.room }
        requires once { IsTrue self.old.audited → 0 < self.old.room_once }
        ensures kept { self.new.kept ≡ noted self.old.audited self.old.kept plan }
        ensures prepared { self.new.prepared ≡ self.old.prepared }
        ensures audited { self.new.audited ≡ self.old.audited }
    {
        if self.audited {
            let number = self.once.len();
            self.once.push_reserved(plan);
            self.kept.push_reserved(PlanIndex::Once(number));
        }
    }

    /// Notes the commit of the prepared transaction with this number, if commits are noted. There must be capacity for
    /// it.
    pub(crate) fn note_prepared(&mut self, number: usize)
        requires there { number < length self.old.prepared }
        requires room { IsTrue self.old.audited → 0 < self.old.room }
        ensures kept { self.new.kept
            ≡ noted self.old.audited self.old.kept (slice_index_or self.old.prepared number no_plan) }
        ensures prepared { self.new.prepared ≡ self.old.prepared }
        ensures audited { self.new.audited ≡ self.old.audited }
    {
        if self.audited {
            self.kept.push_reserved(PlanIndex::Prepared(number));
        }
    }

    /// Returns the number of committed transactions that were noted.
    pub fn len(&self) -> usize
        ensures { result ≡ length self.now.kept }
    {
        self.kept.len()
    }

    /// Returns whether no committed transaction was noted.
    pub fn is_empty(&self) -> bool
        ensures { IsTrue result ↔ (self.now.kept ≡ []) }
    {
        self.kept.is_empty()
    }

    /// Returns the noted transaction with this number, from 0. There must be one.
    pub(crate) fn nth(&self, number: usize) -> &Checked
        requires { number < length self.now.kept }
        ensures { result.now ≡ slice_index_or self.now.kept number no_plan }
    {
        match self.kept[number] {
            PlanIndex::Once(once) => &self.once[once],
            PlanIndex::Prepared(prepared) => &self.prepared[prepared],
        }
    }
}
