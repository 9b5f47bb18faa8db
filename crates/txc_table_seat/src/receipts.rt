// How a seat stores its receipts.
ghost use Rattle.std.specs.Prelude.{◌≡◌, ◌<◌, ◌++◌, ◌∷◌, [], length, None, Some, IfOk, IfSome, IfNone, OnOk};
ghost use Rattle.txc_table_seat.specs.Seated.{last_receipt};

use crate::padded_receipt::PaddedReceipt;
use std::alloc::{AllocError, Global};
use txc_txn::Receipt;

/// The receipts of a seat, in commit order. A type that implements this decides how many of them are in memory;
/// contracts speak of all of them. No method blocks, and only `reserve` can allocate.
pub trait Receipts: Drop {
    ghost use Rattle.std.specs.Prelude.{ℕ, List};
    ghost use Rattle.txc_txn.specs.declared.receipt.Receipt.{Receipt};

    /// All receipts, in order.
    ghost all: { Self → List Receipt };

    /// For how many more receipts there is room.
    ghost room: { Self → ℕ };

    /// Creates an empty list of receipts. Returns `AllocError` if allocation fails.
    fn new(alloc: Global) -> Result<Self, AllocError>
        ensures { IfOk result (λ receipts. all receipts ≡ []) };

    /// Returns the number of receipts.
    fn len(&self) -> usize
        ensures { result ≡ length (all self.now) };

    /// Returns the last receipt, or `None` if there is none.
    fn last(&self) -> Option<&Receipt>
        ensures some { IfSome result (λ receipt. last_receipt (all self.now) ≡ Some receipt.now) }
        ensures none { IfNone result (last_receipt (all self.now) ≡ None) };

    /// Makes room for one more receipt and returns the number of receipts. Returns `AllocError` if allocation fails or
    /// if there would be more than `GREATEST_NUMBER` receipts. The receipts do not change in either case.
    fn reserve(&mut self) -> Result<usize, AllocError>
        ensures count { IfOk result (λ count. count ≡ length (all self.old)) }
        ensures room { OnOk result (0 < room self.new) }
        ensures same { all self.new ≡ all self.old };

    /// Adds a receipt. There must be room for it. Leaves a receipt that is no longer read, so that the next one can
    /// reuse its memory. If there is none, what it leaves has no memory. A receipt is boxed, so that a type that keeps
    /// only the last one in memory exchanges two pointers.
    fn push_reserved(&mut self, alloc: Global, receipt: &mut Box<PaddedReceipt>)
        requires { 0 < room self.old }
        ensures { all self.new ≡ all self.old ++ receipt.old.value.receipt ∷ [] };
}
