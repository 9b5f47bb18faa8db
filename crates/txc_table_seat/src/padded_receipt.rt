// A receipt with a cache line of its own.
ghost use Rattle.std.specs.Prelude.{◌≡◌, []};

use std::alloc::Global;
use txc_txn::Receipt;

/// A receipt with unused bytes after it. The boxes of two seats can be next to each other in memory. With the unused
/// bytes, the receipts in them share no cache line.
#[derive(Drop)]
pub struct PaddedReceipt {
    /// The receipt.
    pub receipt: Receipt,
    // As long as a cache line.
    after: [u64; 8],
}

impl PaddedReceipt {
    /// Creates a receipt without replies and acts, whose numbers are all 0.
    pub fn blank(alloc: Global) -> PaddedReceipt
        ensures tag { (result.receipt.tag.seat ≡ 0) × (result.receipt.tag.serial ≡ 0)
            × (result.receipt.tag.stamp ≡ 0) }
        ensures replies { result.receipt.replies ≡ [] }
        ensures acts { result.receipt.acts ≡ [] }
    {
        PaddedReceipt {
            receipt: Receipt::blank(alloc),
            after: [0; 8],
        }
    }
}
