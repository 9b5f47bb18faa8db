// Receipts that are all in memory.
ghost use Rattle.std.specs.Prelude.{◌≡◌, ◌≤◌, length, slice_get, Some, IfSome, IfNone};

use crate::padded_receipt::PaddedReceipt;
use crate::receipts::Receipts;
use std::alloc::{AllocError, Global};
use std::marker::Model;
use std::mem;
use txc_txn::Receipt;

/// The receipts of a seat, all of them in memory.
#[derive(Drop)]
pub struct AllReceipts {
    list: Vec<Receipt>,
}

impl Model for AllReceipts {
    ghost use Rattle.std.specs.Prelude.{◌-◌, vec_len, vec_capacity};
    ghost use Rattle.txc_table_seat.specs.Seated.{ReceiptsView};

    ghost Value = { ReceiptsView };

    ghost view = { λ receipts. record {
      all = receipts.list.items;
      room = vec_capacity receipts.list - vec_len receipts.list;
    } };
}

impl AllReceipts {
    /// Returns the receipt with this number, from 0. Returns `None` if there is none.
    pub fn get(&self, number: usize) -> Option<&Receipt>
        ensures some { IfSome result (λ receipt. slice_get self.now.all number ≡ Some receipt.now) }
        ensures none { IfNone result (length self.now.all ≤ number) }
    {
        self.list.as_slice().get(number)
    }

    /// Returns all receipts.
    pub fn into_vec(self) -> Vec<Receipt>
        ensures { result.items ≡ self.all }
    {
        self.list
    }
}

impl Receipts for AllReceipts {
    ghost all = { λ receipts. receipts.all };

    ghost room = { λ receipts. receipts.room };

    fn new(alloc: Global) -> Result<Self, AllocError> {
        Ok(AllReceipts {
            list: Vec::new(alloc),
        })
    }

    fn len(&self) -> usize {
        self.list.len()
    }

    fn last(&self) -> Option<&Receipt> {
        self.list.as_slice().last()
    }

    fn reserve(&mut self) -> Result<usize, AllocError> {
        self.list.reserve(1)?;
        Ok(self.list.len())
    }

    fn push_reserved(&mut self, alloc: Global, receipt: &mut Box<PaddedReceipt>) {
        let added = mem::replace(&mut receipt.receipt, Receipt::blank(alloc));
        self.list.push_reserved(added);
    }
}
