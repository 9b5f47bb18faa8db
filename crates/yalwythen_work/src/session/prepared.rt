// Transactions that a session checks once and runs often.
ghost use Rattle.std.specs.Prelude.{◌≡◌, ℕ, IfOk, IfErr, OnErr, slice_get};
ghost use Rattle.yalwythen_work.specs.Committed.{HasCommittedNumbered, HasFailedWith, HasFailedNumberedWith};
ghost use Rattle.yalwythen_work.specs.Committed.{IsPrepared};
ghost use Rattle.yalwythen_work.specs.Committed.{HasCommittedPrepared};
ghost use Rattle.yalwythen_work.specs.Committed.{HasPreparedFailedWith, last_item, replies_in};

use super::Session;
use crate::answers::last_item;
use crate::recording::Recording;
use crate::transact_error::TransactError;
use std::sync::Wait;
use txc_base::Item;
use txc_table::Ended;
use txc_txn_check::{Checked, Step};

/// A transaction that a session has checked once, and can run any number of times.
#[derive(Debug, Clone, Copy, PartialEq, Eq)]
pub struct Prepared {
    // The number of the session's seat.
    seat: u16,
    // The index of the transaction among those that the session prepared.
    number: usize,
}

impl<K: Recording> Session<'_, K> {
    /// Prepares the steps of a list like `prepare`.
    fn prepare_list(&mut self, steps: Vec<Step>) -> Result<Prepared, TransactError>
        ensures ok { IfOk result (λ prepared. IsPrepared self.old steps.items prepared.number self.new) }
        ensures own { IfOk result (λ prepared. prepared.seat ≡ self.new.seat.number) }
        ensures failed { IfErr result (λ error. HasFailedWith self.old steps.items error) }
        ensures same { OnErr result (self.new ≡ self.old) }
    {
        let plan = Checked::check(steps, self.table.kinds())?;
        plan.show();
        let number = self.plans.prepare(plan)?;
        Ok(Prepared {
            seat: self.seat.number(),
            number,
        })
    }

    /// Checks these steps as a transaction and stores it, so that `transact_prepared` and `take_prepared` can run it
    /// often. A run of it then allocates its receipt and, if transactions are noted for the audit, a note with its
    /// number.
    ///
    /// Fails with `Unfit` if the steps are not a transaction of these channels, and with `Stopped(NoMemory)` if
    /// allocation fails. On failure the session is unchanged.
    pub fn prepare<const N: usize>(&mut self, steps: [Step; N]) -> Result<Prepared, TransactError>
        ensures ok { IfOk result (λ prepared. IsPrepared self.old steps.entry prepared.number self.new) }
        ensures own { IfOk result (λ prepared. prepared.seat ≡ self.new.seat.number) }
        ensures failed { IfErr result (λ error. HasFailedWith self.old steps.entry error) }
        ensures same { OnErr result (self.new ≡ self.old) }
    {
        let steps = Vec::from_array(self.alloc, steps)?;
        self.prepare_list(steps)
    }

    /// Runs the transaction with this number, among those that this session has prepared, like `transact_prepared`.
    /// Fails with `Unprepared` if there is none.
    fn transact_numbered<R: Wait>(&mut self, rt: &R, number: usize) -> Result<usize, TransactError>
        ensures committed { IfOk result (λ receipt. HasCommittedNumbered self.old number receipt self.new) }
        ensures failed { IfErr result (λ error. HasFailedNumberedWith self.old number error) }
        ensures same { OnErr result (self.new ≡ self.old) }
    {
        self.plans.reserve_prepared()?;
        let Some(plan) = self.plans.prepared(number) else {
            return Err(TransactError::Unprepared);
        };
        plan.show();
        match self.table.transact(rt, self.alloc, &mut self.seat, plan)? {
            Ended::Kept(receipt) => {
                self.plans.note_prepared(number);
                Ok(receipt)
            }
            Ended::Stalled(cause) => Err(TransactError::Stalled(cause)),
        }
    }

    /// Runs a prepared transaction of this session like `transact`, and returns the number of its receipt. Fails with
    /// `Unprepared` if it was prepared at a session with another number or if this session has prepared no transaction
    /// at its index, and with `Stalled` or `Stopped` like `transact`. Blocks like `transact`.
    ///
    /// A `Prepared` of another session with the same number is not detected: the transaction that this session prepared
    /// at that index runs.
    pub fn transact_prepared<R: Wait>(
        &mut self,
        rt: &R,
        prepared: Prepared,
    ) -> Result<usize, TransactError>
        ensures committed { IfOk result (λ number. HasCommittedPrepared self.old prepared number self.new) }
        ensures failed { IfErr result (λ error. HasPreparedFailedWith self.old prepared error) }
        ensures same { OnErr result (self.new ≡ self.old) }
    {
        if prepared.seat != self.number() {
            return Err(TransactError::Unprepared);
        }
        self.transact_numbered(rt, prepared.number)
    }

    /// Runs a prepared transaction of this session like `transact_prepared`, and returns the item that it read or
    /// peeked last, or `None` if it read no item. Fails and blocks like `transact_prepared`.
    pub fn take_prepared<R: Wait>(
        &mut self,
        rt: &R,
        prepared: Prepared,
    ) -> Result<Option<Item>, TransactError>
        ensures committed { IfOk result (λ item. (number : ℕ) × HasCommittedPrepared self.old prepared number self.new
            × (item ≡ last_item (replies_in (slice_get self.new.seat.receipts number)))) }
        ensures failed { IfErr result (λ error. HasPreparedFailedWith self.old prepared error) }
        ensures same { OnErr result (self.new ≡ self.old) }
    {
        let number = self.transact_prepared(rt, prepared)?;
        Ok(last_item(self.replies_of(number)))
    }
}
