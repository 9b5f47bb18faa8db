// The sort keys of receipts.
ghost use Rattle.std.specs.Prelude.{◌≡◌, ◌≤◌, ◌++◌, length, IfOk, OnOk};
ghost use Rattle.txc_base.specs.declared.limits.TheConstants.{MAX_SEATS_OF_LARGE};
ghost use Rattle.txc_table_audit.specs.ReceiptKeys.{keys_of, keys_from};

use std::alloc::{AllocError, Global};
use txc_base::List;
use txc_txn::Receipt;

/// The sort keys of a receipt, and its place among the receipts of its seat.
#[derive(Debug, Clone, Copy, PartialEq, Eq, PartialOrd, Ord)]
pub struct ReceiptKey {
    pub stamp: u64,
    pub seat: u16,
    pub serial: u64,
    /// How many receipts of the seat come before it.
    pub nth: usize,
}

/// Adds the keys of a seat's receipts. Returns `AllocError` if allocation fails; some keys can then have been added.
fn add_keys(keys: &mut Vec<ReceiptKey>, seat: u16, receipts: &[Receipt]) -> Result<(), AllocError>
    ensures { OnOk result (keys.new.items ≡ keys.old.items ++ keys_of seat 0 receipts.now) }
{
    for nth in 0..receipts.len() {
        let tag = receipts[nth].tag;
        keys.push(ReceiptKey {
            stamp: tag.stamp,
            seat,
            serial: tag.serial,
            nth,
        })?;
    }
    Ok(())
}

/// Returns the keys of all receipts, seat by seat. Returns `AllocError` if allocation fails.
pub fn list_keys(alloc: Global, receipts: &[List<Receipt>]) -> Result<Vec<ReceiptKey>, AllocError>
    requires { length receipts.now ≤ MAX_SEATS_OF_LARGE }
    ensures { IfOk result (λ keys. keys.items ≡ keys_from 0 receipts.now) }
{
    let mut keys = Vec::new(alloc);
    for seat in 0..receipts.len() {
        add_keys(&mut keys, seat as u16, receipts[seat].as_slice())?;
    }
    Ok(keys)
}
