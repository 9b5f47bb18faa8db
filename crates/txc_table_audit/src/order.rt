// All transactions in their order, run again.
ghost use Rattle.std.specs.Prelude.{◌≡◌, ◌<◌, ◌≤◌, false, map, length, slice_get, All, IsPermutation, IsSorted};
ghost use Rattle.std.specs.Prelude.{IsTrue, IfOk, MatchOption};
ghost use Rattle.std.specs.Ordering.{nat_cmp, ordering_then};
ghost use Rattle.txc_base.specs.declared.limits.TheConstants.{MAX_SEATS_OF_LARGE};
ghost use Rattle.txc_txn_check.specs.Steps.{Fits};
ghost use Rattle.txc_txn.specs.Maps.{Map};
ghost use Rattle.txc_txn.specs.Plain.{chan_in};
ghost use Rattle.txc_txn_history.specs.Events.{HasBegun};
ghost use Rattle.txc_txn_history.specs.OneOrder.{Occurs, Runs};
ghost use Rattle.txc_table_audit.specs.Refused.{IsFirstMismatch};
ghost use Rattle.txc_table_audit.specs.ReceiptKeys.{IsKey, event_at, stamp_before, keys_from};

use crate::key::{ReceiptKey, list_keys};
use crate::ranked::Ranked;
use crate::rerun::Rerun;
use crate::transactions::Transactions;
use std::alloc::{AllocError, Global};
use std::sync::Wait;
use txc_base::{List as Items, Tag};
use txc_txn::Receipt;

/// Returns the keys of all receipts, sorted by stamp, seat and serial. Returns `AllocError` if allocation fails.
pub fn sort_keys(alloc: Global, receipts: &[Items<Receipt>]) -> Result<Vec<ReceiptKey>, AllocError>
    requires { length receipts.now ≤ MAX_SEATS_OF_LARGE }
    ensures same { IfOk result (λ keys. IsPermutation (keys_from 0 receipts.now) keys.items) }
    ensures sorted { IfOk result (λ keys. IsSorted (λ one other. ordering_then (nat_cmp one.stamp other.stamp)
        (ordering_then (nat_cmp one.seat other.seat) (nat_cmp one.serial other.serial))) keys.items) }
{
    let mut keys = list_keys(alloc, receipts)?;
    keys.sort()?;
    Ok(keys)
}

/// Returns the stamp of the receipt before the nth, or 0 before the first.
fn stamp_before_nth(receipts: &[Receipt], nth: usize) -> u64
    requires { nth < length receipts.now }
    ensures { result ≡ stamp_before 0 receipts.now nth }
{
    if nth == 0 {
        0
    } else {
        receipts[nth - 1].tag.stamp
    }
}

/// Runs the transaction of a key, and returns whether it commits and gives its receipt. Returns `AllocError` if
/// allocation fails.
fn run_receipt<R: Wait, T: Transactions>(
    rt: &R,
    rerun: &mut Rerun,
    receipts: &[Items<Receipt>],
    transactions: &T,
    key: ReceiptKey,
) -> Result<bool, AllocError>
    requires fits { All (All (λ plan. Fits (slice_get rerun.old.kinds) plan.steps)) (T.plans transactions.now) }
    requires begun { HasBegun receipts.now (T.plans transactions.now) }
    requires key { IsKey receipts.now key }
    ensures kinds { rerun.new.kinds ≡ rerun.old.kinds }
    ensures same { let event = event_at (T.plans transactions.now) receipts.now key in
        IfOk result (λ same. IsTrue same → Occurs (chan_in rerun.old.held) event (chan_in rerun.new.held)) }
    ensures wrong { let event = event_at (T.plans transactions.now) receipts.now key in
        IfOk result (λ same. same ≡ false → (left : Map) → ¬ Occurs (chan_in rerun.old.held) event left) }
{
    let ReceiptKey {
        seat,
        serial,
        nth,
        ..
    } = key;
    let own = receipts[seat as usize].as_slice();
    let tag = Tag {
        seat,
        serial,
        stamp: stamp_before_nth(own, nth),
    };
    let plan = transactions.transaction(seat as usize, nth);
    rerun.run(rt, tag, plan, &own[nth])
}

/// Runs all transactions in this order, and returns the first rank at which one does not commit or gives another
/// receipt. Returns `None` if there is no such rank. Returns `AllocError` if allocation fails.
pub fn find_mismatch<R: Wait, T: Transactions>(
    rt: &R,
    rerun: &mut Rerun,
    receipts: &[Items<Receipt>],
    transactions: &T,
    keys: &[ReceiptKey],
) -> Result<Option<usize>, AllocError>
    requires fits { All (All (λ plan. Fits (slice_get rerun.old.kinds) plan.steps)) (T.plans transactions.now) }
    requires begun { HasBegun receipts.now (T.plans transactions.now) }
    requires keys { All (IsKey receipts.now) keys.now }
    ensures kinds { rerun.new.kinds ≡ rerun.old.kinds }
    ensures ok { let order = map (event_at (T.plans transactions.now) receipts.now) keys.now in
        IfOk result (λ found. MatchOption found (Runs (chan_in rerun.old.held) order (chan_in rerun.new.held))
        (λ rank. IsFirstMismatch (chan_in rerun.old.held) order rank)) }
{
    for rank in 0..keys.len() {
        if !run_receipt(rt, rerun, receipts, transactions, keys[rank])? {
            return Ok(Some(rank));
        }
    }
    Ok(None)
}

/// Returns the seats and serials of keys, in order. Returns `AllocError` if allocation fails.
pub fn list_ranks(alloc: Global, keys: &[ReceiptKey]) -> Result<Vec<Ranked>, AllocError>
    ensures { IfOk result (λ ranks. ranks.items ≡ map (λ key. record { seat = key.seat; serial = key.serial })
        keys.now) }
{
    let mut ranks = Vec::new(alloc);
    for key in keys {
        ranks.push(Ranked {
            seat: key.seat,
            serial: key.serial,
        })?;
    }
    Ok(ranks)
}
