// Receipts with only the last one in memory.
use crate::padded_receipt::PaddedReceipt;
use crate::receipts::Receipts;
use std::alloc::{AllocError, Global};
use std::marker::Model;
use std::mem;
use txc_chan::GhostList;
use txc_txn::Receipt;

/// The receipts of a seat, with only the last one in memory: earlier receipts exist only in proofs. The next receipt
/// reuses the memory of the one before the last. So a seat's memory does not grow with the number of its commits.
#[derive(Drop)]
pub struct LastReceipt {
    // Only for proofs: all receipts.
    all: GhostList<Receipt>,
    // The last one, if there is one. If not, nothing reads it. It is boxed so that a commit exchanges two pointers.
    last: Box<PaddedReceipt>,
    // How many receipts there are.
    count: usize,
}

impl Model for LastReceipt {
    ghost use Rattle.std.specs.Prelude.{◌-◌};
    ghost use Rattle.txc_base.specs.declared.limits.TheConstants.{GREATEST_NUMBER};
    ghost use Rattle.txc_table_seat.specs.Seated.{IsLastOf, ReceiptsView};

    ghost Value = { ReceiptsView };

    ghost view = { λ receipts. record {
      all = receipts.all;
      room = GREATEST_NUMBER - receipts.count;
    } };

    ghost invariant = { λ receipts. IsLastOf receipts.all receipts.last.value.receipt receipts.count };
}

impl Receipts for LastReceipt {
    ghost all = { λ receipts. receipts.all };

    ghost room = { λ receipts. receipts.room };

    fn new(alloc: Global) -> Result<Self, AllocError> {
        Ok(LastReceipt {
            all: GhostList::new(),
            last: Box::new(alloc, PaddedReceipt::blank(alloc))?,
            count: 0,
        })
    }

    fn len(&self) -> usize {
        // Only for the proof: the read of a field shows the invariant of the type.
        let _last = &self.last;
        self.count
    }

    fn last(&self) -> Option<&Receipt> {
        if self.count == 0 {
            return None;
        }
        Some(&self.last.receipt)
    }

    fn reserve(&mut self) -> Result<usize, AllocError> {
        // No memory bounds their number.
        if self.count == usize::MAX {
            return Err(AllocError);
        }
        Ok(self.count)
    }

    fn push_reserved(&mut self, alloc: Global, receipt: &mut Box<PaddedReceipt>) {
        // The memory of the receipt before is used again, so that a transaction need not allocate.
        let _alloc = alloc;
        mem::swap(&mut self.last, receipt);
        self.all.push(&self.last.receipt);
        self.count += 1;
    }
}
