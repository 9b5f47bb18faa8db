// The audit of a report.
ghost use Rattle.std.specs.Prelude.{◌≡◌, ◌≤◌, List, map, length, slice_get, All, IfErr, IfOk, MatchResult, OnOk};
ghost use Rattle.txc_base.specs.declared.limits.TheConstants.{MAX_CHANNELS_OF_LARGE};
ghost use Rattle.txc_txn_check.specs.Steps.{Fits};
ghost use Rattle.txc_txn.specs.Plain.{chan_in};
ghost use Rattle.txc_table_audit.specs.Conditions.{IsAuditable};
ghost use Rattle.txc_txn_history.specs.Events.{Event, HasBegun};
ghost use Rattle.txc_txn_history.specs.OneOrder.{IsOneOrder, IsOneRun};
ghost use Rattle.txc_table_audit.specs.Ranks.{rank_of};
ghost use Rattle.txc_table_audit.specs.Refused.{Refuses, RefusesRun};
ghost use Rattle.txc_table_audit.specs.ReceiptKeys.{IsKey, event_at};

use crate::fault::AuditFault;
use crate::key::ReceiptKey;
use crate::order::{find_mismatch, list_ranks, sort_keys};
use crate::ranked::Ranked;
use crate::rerun::Rerun;
use crate::seats::find_out_of_order;
use crate::transactions::{Lists, Transactions};
use std::alloc::Global;
use std::sync::Wait;
use txc_chan::Decl;
use txc_txn::Report;
use txc_txn_check::Checked;

/// Runs all transactions in this order, and compares the results with a report. Returns `WrongReply` with the rank of
/// the first transaction that does not commit or gives another receipt. Otherwise returns `WrongAccount` with the first
/// channel that is left in another state. Returns `NoMemory` if allocation fails.
fn compare<R: Wait, T: Transactions>(
    rt: &R,
    rerun: &mut Rerun,
    report: &Report,
    transactions: &T,
    keys: &[ReceiptKey],
) -> Result<(), AuditFault>
    requires few { length report.now.accounts ≤ MAX_CHANNELS_OF_LARGE }
    requires there { length report.now.accounts ≤ length rerun.old.kinds }
    requires fits { All (All (λ plan. Fits (slice_get rerun.old.kinds) plan.steps)) (T.plans transactions.now) }
    requires begun { HasBegun report.now.receipts (T.plans transactions.now) }
    requires keys { All (IsKey report.now.receipts) keys.now }
    ensures ok { let order = map (event_at (T.plans transactions.now) report.now.receipts) keys.now in
        OnOk result (IsOneRun (chan_in rerun.old.held) order report.now.accounts) }
    ensures err { let order = map (event_at (T.plans transactions.now) report.now.receipts)
        keys.now in
        IfErr result (λ fault. RefusesRun (chan_in rerun.old.held) order report.now.accounts fault) }
{
    let receipts = report.receipts.as_slice();
    if let Some(rank) = find_mismatch(rt, rerun, receipts, transactions, keys)? {
        return Err(AuditFault::WrongReply(rank));
    }
    if let Some(chan) = rerun.find_wrong_account(report.accounts.as_slice())? {
        return Err(AuditFault::WrongAccount(chan));
    }
    Ok(())
}

/// Audits a report like `audit`, however its transactions are stored. If the report is one history of these
/// transactions, returns the order of that history or `NoMemory`.
pub fn audit_of<R: Wait, T: Transactions>(
    rt: &R,
    alloc: Global,
    decls: &[Decl],
    report: &Report,
    transactions: &T,
) -> Result<Vec<Ranked>, AuditFault>
    requires { IsAuditable decls.now (T.plans transactions.now) report.now }
    ensures ok { IfOk result (λ ranks. (order : List Event)
        × (IsOneOrder decls.now (T.plans transactions.now) report.now order
        × (ranks.items ≡ map rank_of order))) }
    ensures err { IfErr result (λ fault. Refuses decls.now (T.plans transactions.now)
        report.now fault) }
    ensures serial { (order : List Event) → IsOneOrder decls.now (T.plans transactions.now) report.now order
        → MatchResult result (λ ranks. ranks.items ≡ map rank_of order) (λ fault. fault ≡ AuditFault.NoMemory) }
{
    let receipts = report.receipts.as_slice();
    if let Some(seat) = find_out_of_order(receipts) {
        return Err(AuditFault::OutOfOrder(seat));
    }
    let keys = sort_keys(alloc, receipts)?;
    let mut rerun = Rerun::build(alloc, decls)?;
    compare(rt, &mut rerun, report, transactions, keys.as_slice())?;
    Ok(list_ranks(alloc, keys.as_slice())?)
}

/// Checks whether a report is what one thread would have given. `find_unmet` says which reports can be audited. For
/// each seat, `audit` runs again as many of its first transactions as it has receipts. It runs them on channels as
/// declared, in the order of the stamps, seats and serials of their receipts. Each must commit and give exactly its
/// receipt. At the end each account must have its channel's closed flag, log and lists. The kind, bound, first readers
/// and slots of an account are not compared. Returns these transactions in that order. Otherwise returns the first
/// fault: `OutOfOrder`, by seats, then `WrongReply`, by ranks, then `WrongAccount`, by channels. Returns `NoMemory` if
/// allocation fails, but never in place of `OutOfOrder`. If the report is one history of these transactions, returns
/// the order of that history or `NoMemory`.
pub fn audit<R: Wait>(
    rt: &R,
    alloc: Global,
    decls: &[Decl],
    report: &Report,
    transactions: &[Vec<Checked>],
) -> Result<Vec<Ranked>, AuditFault>
    requires { IsAuditable decls.now (map (λ seat. seat.items) transactions.now) report.now }
    ensures ok { IfOk result (λ ranks. (order : List Event)
        × (IsOneOrder decls.now (map (λ seat. seat.items) transactions.now) report.now order
        × (ranks.items ≡ map rank_of order))) }
    ensures err { IfErr result (λ fault. Refuses decls.now (map (λ seat. seat.items) transactions.now)
        report.now fault) }
    ensures serial { (order : List Event)
        → IsOneOrder decls.now (map (λ seat. seat.items) transactions.now) report.now order
        → MatchResult result (λ ranks. ranks.items ≡ map rank_of order) (λ fault. fault ≡ AuditFault.NoMemory) }
{
    audit_of(rt, alloc, decls, report, &Lists(transactions))
}
