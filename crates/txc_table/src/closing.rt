// The report of a table that all its seats have left.
ghost use Rattle.std.specs.Prelude.{◌≡◌, ◌≤◌, [], List, IfOk, IfErr, IfSome, length, vec_capacity, vec_len};
ghost use Rattle.txc_chan.specs.declared.account.Account.{Account};
ghost use Rattle.txc_table_lines.specs.Accounted.{AreAccounts};
ghost use Rattle.txc_table_lines.specs.Locked.{AreClean, AreWhole, ledgers_in, ledgers_of, helds_of, lines_of};
ghost use Rattle.txc_table.specs.Closing.{AreBuffers, AreEmptyShares, CanClose, IsConsistentReport};
ghost use Rattle.txc_table.specs.Closing.{IsConsistentSummary, receipts_of};
ghost use Rattle.txc_table.specs.Table.{line_decls};

use crate::departed_seat::DepartedSeat;
use crate::gathered::gather;
use crate::table_seats::TableSeats;
use std::alloc::Global;
use std::sync::Wait;
use txc_base::List;
use txc_chan::{Account, FullLog, Log, Summary};
use txc_table_lines::{CollectedShares, LockedLines};
use txc_table_seat::{History, Receipts};
use txc_txn::{Receipt, Report};

/// The buffers of a report: the accounts of the channels without their logs, shares to which those of the seats are
/// added, and empty lists with room for the seats' histories and for their receipts.
#[derive(Drop)]
pub(crate) struct ReportBuffers {
    pub(crate) accounts: Vec<Account>,
    pub(crate) shares: CollectedShares,
    pub(crate) histories: Vec<History>,
    pub(crate) receipts: Vec<List<Receipt>>,
}

/// Makes the buffers of a report of these channels and these seats, so that the rest cannot fail. Returns `None` if
/// allocation fails. Allocates.
pub(crate) fn buffers_for(
    locked: &mut LockedLines<FullLog>,
    alloc: Global,
    table_seats: &TableSeats,
) -> Option<ReportBuffers>
    requires clean { AreClean (helds_of locked.old) }
    ensures buffers { IfSome result (AreBuffers locked.old table_seats.now.seats) }
    ensures same { locked.new ≡ locked.old }
{
    let mut histories = Vec::new(alloc);
    let mut receipts = Vec::new(alloc);
    let seats = usize::from(table_seats.count());
    if histories.reserve(seats).is_err() || receipts.reserve(seats).is_err() {
        return None;
    }
    let Ok(shares) = locked.empty_shares(alloc) else {
        return None;
    };
    match locked.accounts_without_logs(alloc) {
        Ok(accounts) => Some(ReportBuffers {
            accounts,
            shares,
            histories,
            receipts,
        }),
        Err(_) => None,
    }
}

/// Moves the histories of all these seats into a list that has room for them. With any accounts of the channels their
/// receipts are a report. Returns the seats' joined shares.
fn close<K: Log, S: Receipts>(
    locked: &mut LockedLines<K>,
    left: Vec<DepartedSeat<K, S>>,
    table_seats: &TableSeats,
    none: CollectedShares,
    histories: &mut Vec<History<S>>,
) -> CollectedShares
    requires can { CanClose locked.old table_seats.now left.items }
    requires nothing { AreEmptyShares locked.old none }
    requires none { histories.old.items ≡ [] }
    requires room { table_seats.now.seats ≤ vec_capacity histories.old }
    ensures same { locked.new ≡ locked.old }
    ensures many { vec_len histories.new ≡ table_seats.now.seats }
    ensures ledgers { ledgers_in result ≡ ledgers_of (lines_of locked.old) }
    ensures whole { AreWhole result }
    ensures report { (accounts : List Account)
        → AreAccounts (line_decls (lines_of locked.old)) (helds_of locked.old) (length locked.old) accounts
        → IsConsistentReport (lines_of locked.old) table_seats.now.seats left.items
        (record { accounts = accounts; receipts = receipts_of histories.new.items }) }
{
    locked.show_marks();
    let mut all = gather(left, table_seats, locked, none, histories);
    locked.show_whole(&mut all);
    all
}

/// Moves the receipts of these histories into a list that has room for them.
fn write_out(histories: Vec<History>, receipts: Vec<List<Receipt>>) -> Vec<List<Receipt>>
    requires none { receipts.items ≡ [] }
    requires room { vec_len histories ≤ vec_capacity receipts }
    ensures { result.items ≡ receipts_of histories.items }
{
    let mut receipts = receipts;
    for one in histories {
        receipts.push_reserved(List::from_vec(one.into_receipts()));
    }
    receipts
}

/// Makes the report of a table whose seats are all in `left`, from these buffers. The logs of the channels move to
/// their accounts and are not copied.
pub(crate) fn report<R: Wait>(
    rt: &R,
    locked: LockedLines<FullLog>,
    table_seats: &TableSeats,
    left: Vec<DepartedSeat>,
    buffers: ReportBuffers,
) -> Report
    requires can { CanClose locked table_seats.now left.items }
    requires buffers { AreBuffers locked table_seats.now.seats buffers }
    ensures standing { IsConsistentReport (lines_of locked) table_seats.now.seats left.items result }
    ensures accounts { AreAccounts (line_decls (lines_of locked)) (helds_of locked) (length locked) result.accounts }
{
    let ReportBuffers {
        accounts,
        shares,
        mut histories,
        receipts,
    } = buffers;
    let mut locked = locked;
    let all = close(&mut locked, left, table_seats, shares, &mut histories);
    Report {
        accounts: List::from_vec(locked.into_logs(rt, accounts, all)),
        receipts: List::from_vec(write_out(histories, receipts)),
    }
}

/// Makes the summaries of a table whose seats are all in `left`: what its report shows without logs and receipts.
/// Returns the seats if allocation fails. Allocates.
pub(crate) fn report_in_summary<K: Log, S: Receipts>(
    locked: &mut LockedLines<K>,
    alloc: Global,
    table_seats: &TableSeats,
    left: Vec<DepartedSeat<K, S>>,
) -> Result<Vec<Summary>, Vec<DepartedSeat<K, S>>>
    requires can { CanClose locked.old table_seats.now left.items }
    ensures ok { IfOk result (λ summaries.
        IsConsistentSummary (lines_of locked.old) table_seats.now.seats left.items summaries.items) }
    ensures err { IfErr result (λ back. back ≡ left) }
    ensures same { locked.new ≡ locked.old }
{
    let mut histories = Vec::new(alloc);
    if histories.reserve(usize::from(table_seats.count())).is_err() {
        return Err(left);
    }
    let Ok(shares) = locked.empty_shares(alloc) else {
        return Err(left);
    };
    match locked.summaries(alloc) {
        Ok(summaries) => {
            drop(close(locked, left, table_seats, shares, &mut histories));
            Ok(summaries)
        }
        Err(_) => Err(left),
    }
}
