// A transaction that was checked.
ghost use Rattle.std.specs.Prelude.{◌≡◌, ◌≢◌, ◌<◌, ℕ, Option, [], ◌∷◌, IsOk, IfOk, IfErr, IfNone, IfSome, Contains};
ghost use Rattle.std.specs.Prelude.{IsTrue, length, slice_get};
ghost use Rattle.txc_base.specs.declared.kind.Kind.{Kind};
ghost use Rattle.txc_base.specs.declared.op.Op.{Op as Ops};
ghost use Rattle.txc_base.specs.Op.{chan_of};
ghost use Rattle.txc_txn_check.specs.declared.step.Step.TheVariants.{Do};
ghost use Rattle.txc_txn_check.specs.Limits.{IsChecked, operations_in};
ghost use Rattle.txc_txn_check.specs.Steps.{Fits, fits_in};
ghost use Rattle.txc_txn_check.specs.Walk.{Fine, Faulty, walk};

use crate::fault::TxnFault;
use crate::fit::fits_steps;
use crate::limits::MAX_DECLARED;
use crate::step::Step;
use crate::walk::{Seen, see_steps};
use arrayvec::ArrayVec;
use std::marker::Model;
use txc_base::{Kind, List, Op};

/// A transaction within the limits, with the channels that it names.
#[derive(Debug, Drop)]
pub struct Checked {
    steps: List<Step>,
    declared: ArrayVec<u16, MAX_DECLARED>,
}

impl Model for Checked {
    ghost use Rattle.std.specs.Coded.{codes};
    ghost use Rattle.txc_txn_check.specs.Limits.{CheckedView, IsChecked};
    ghost use Rattle.txc_txn_check.specs.contracts.step.Step as step;

    ghost Value = { CheckedView };

    // Only for the proof: values of `Value` have a code, because the steps in them have one.
    ghost coded = { Prim.hlevel (codes, step.the_row.coded) };

    ghost view = { λ checked. record { steps = checked.steps; declared = checked.declared.items } };

    ghost invariant = { λ checked. IsChecked (record { steps = checked.steps; declared = checked.declared.items }) };
}

impl Checked {
    /// Checks steps against the limits and against the kinds of the channels, which are in the order of their numbers.
    /// Returns the steps with the numbers of their channels. Fails with the first fault in the order of the steps and
    /// drops the steps. An `Or` is checked for `TooDeep`, then its branches are checked in order. An operation is
    /// checked for `TooLong`, `NoChannel`, `NotForKind`, `NoReader` and `TooManyChannels`, in this order.
    pub fn check(steps: Vec<Step>, kinds: &[Kind]) -> Result<Checked, TxnFault>
        ensures ok { IfOk result (λ checked. walk (slice_get kinds.now) steps.items
            ≡ Fine (record { operations = operations_in steps.items; channels = checked.declared })) }
        ensures steps { IfOk result (λ checked. checked.steps ≡ steps.items) }
        ensures fits { IfOk result (λ checked. Fits (slice_get kinds.now) checked.steps) }
        ensures err { IfErr result (λ fault. walk (slice_get kinds.now) steps.items ≡ Faulty fault) }
        ensures accepts { (declared : List ℕ) → IsChecked (record { steps = steps.items; declared = declared })
            → Fits (slice_get kinds.now) steps.items → IsOk result }
    {
        let mut seen = Seen {
            operations: 0,
            channels: ArrayVec::new(),
        };
        see_steps(&mut seen, kinds, 0, steps.as_slice())?;
        Ok(Checked {
            steps: List::from_vec(steps),
            declared: seen.channels,
        })
    }

    /// Returns whether the channel of each operation exists and its kind has the operation, with reader 0 for a queue.
    pub fn fits(&self, kinds: &[Kind]) -> bool
        ensures value { result ≡ fits_in (slice_get kinds.now) self.now.steps }
        ensures fits { IsTrue result → Fits (slice_get kinds.now) self.now.steps }
    {
        fits_steps(kinds, self.steps.as_slice())
    }

    /// Returns the steps.
    pub fn steps(&self) -> &[Step]
        ensures { result.now ≡ self.now.steps }
    {
        self.steps.as_slice()
    }

    /// Returns the numbers of the channels that the operations are on, in rising order and without duplicates.
    pub fn declared(&self) -> &[u16]
        ensures { result.now ≡ self.now.declared }
    {
        self.declared.as_slice()
    }

    /// Returns the operation of a transaction whose only step it is.
    pub fn only_operation(&self) -> Option<&Op>
        ensures some { IfSome result (λ op.
            (self.now.steps ≡ Do op.now ∷ []) × (self.now.declared ≡ chan_of op.now ∷ [])) }
        ensures none { IfNone result ((op : Ops) → self.now.steps ≡ Do op ∷ []
            → self.now.declared ≢ chan_of op ∷ []) }
    {
        let steps = self.steps.as_slice();
        if steps.len() != 1 || self.declared.len() != 1 {
            return None;
        }
        // The channel is always that of the one operation. The comparison saves a proof of that.
        match &steps[0] {
            Step::Do(op) if self.declared[0] == op.chan() => Some(op),
            _ => None,
        }
    }

    /// Shows to a proof what holds for a transaction that fits these kinds. It fits all kinds that agree with these on
    /// its declared channels, and the declared channels exist. Does nothing.
    pub fn show_fits(&self, kinds: &[Kind])
        ensures others { (others : ℕ → Option Kind) → Fits (slice_get kinds.now) self.now.steps
            → ((n : ℕ) → Contains self.now.declared n → others n ≡ slice_get kinds.now n) → Fits others self.now.steps }
        ensures there { Fits (slice_get kinds.now) self.now.steps → (n : ℕ) → Contains self.now.declared n
            → n < length kinds.now }
    {
        self.show();
    }

    /// Shows to a proof what holds for every checked transaction. Does nothing.
    pub fn show(&self)
        ensures { IsChecked self.now }
    {
        // Only for the proof: the read of a field shows the invariant of the type.
        let _fields = &self.steps;
    }
}
