// Gathering the seats that have left.
ghost use Rattle.std.specs.Prelude.{◌≡◌, ◌<◌, ◌≤◌, [], true, false, Some, None, IfSome, length, slice_get};
ghost use Rattle.std.specs.Prelude.{slice_index_or, vec_capacity};
ghost use Rattle.txc_table_report.specs.Finished.{numbered};
ghost use Rattle.txc_table_report.specs.Gathered.{totals_from};
ghost use Rattle.txc_table_report.specs.Out.{RemovesSeat};
ghost use Rattle.txc_txn_history.specs.Seats.{all_uses_from};
ghost use Rattle.txc_table_lines.specs.Locked.{HaveParts, amounts_in, ledgers_in, ledgers_of, lines_of, made_in};
ghost use Rattle.txc_table.specs.Closing.{AreEmptyShares, AreOfAll, CanClose, plans_of, receipts_of};
ghost use Rattle.txc_table.specs.Refused.{HaveAllNumbers, IsMissing};
ghost use Rattle.txc_table.specs.Seat.{AreOf, commits_of};
ghost use Rattle.txc_table.specs.Table.{TableLines};

use crate::departed_seat::DepartedSeat;
use crate::table_seats::TableSeats;
use txc_base_ledger::Share;
use txc_chan::Log;
use txc_table_lines::{CollectedShares, LockedLines};
use txc_table_seat::{History, Receipts};

/// Returns the index of a seat with this number, or `None` if there is none.
pub(crate) fn find_seat<K: Log, S: Receipts>(
    left: &[DepartedSeat<K, S>],
    number: u16,
) -> Option<usize>
    ensures some { IfSome result (λ at. (seat : _) × (slice_get left.now at ≡ Some seat)
        × (seat.commits.number ≡ number)) }
    ensures none { result ≡ None → numbered number (commits_of left.now) ≡ 0 }
    ensures there { IfSome result (λ at. 0 < numbered number (commits_of left.now)) }
{
    for at in 0..left.len() {
        let seat = &left[at];
        if seat.history.number() == number {
            return Some(at);
        }
    }
    None
}

/// Returns whether a seat with a number below `seats` is missing from these.
pub(crate) fn is_missing<K: Log, S: Receipts>(left: &[DepartedSeat<K, S>], seats: u16) -> bool
    ensures yes { result ≡ true → IsMissing seats (commits_of left.now) }
    ensures no { result ≡ false → HaveAllNumbers seats (commits_of left.now) }
{
    for number in 0..seats {
        if find_seat(left, number).is_none() {
            return true;
        }
    }
    false
}

/// Removes and returns a seat with this number.
fn remove_seat<K: Log, S: Receipts>(
    left: &mut Vec<DepartedSeat<K, S>>,
    number: u16,
) -> DepartedSeat<K, S>
    requires { 0 < numbered number (commits_of left.old.items) }
    ensures out { RemovesSeat number (commits_of left.old.items) result.commits (commits_of left.new.items) }
    ensures of { (lines : TableLines) → AreOf lines left.old.items
        → (result.lines ≡ lines) × AreOf lines left.new.items }
{
    match find_seat(left.as_slice(), number) {
        Some(at) => left.remove(at),
        None => unreachable!(),
    }
}

/// Returns a share of the first seat's table's own ledger without a part. Does nothing at run time.
fn no_part<K: Log, S: Receipts>(left: &mut Vec<DepartedSeat<K, S>>) -> Share
    requires some { 0 < length left.old.items }
    ensures of { (seat : _) → (result.name ≡ (slice_index_or left.old.items 0 seat).lines.ledger)
        × (result.whole ≡ (slice_index_or left.old.items 0 seat).lines.seats) }
    ensures none { result.parts ≡ 0 }
    ensures same { left.new.items ≡ left.old.items }
    ensures room { vec_capacity left.new ≡ vec_capacity left.old }
{
    left[0].table_share.empty()
}

/// Moves the histories of all seats, ordered by number, into a list that has room for them, and returns the seats'
/// joined shares.
pub(crate) fn gather<K: Log, S: Receipts>(
    left: Vec<DepartedSeat<K, S>>,
    table_seats: &TableSeats,
    locked: &mut LockedLines<K>,
    none: CollectedShares,
    histories: &mut Vec<History<S>>,
) -> CollectedShares
    requires can { CanClose locked.old table_seats.now left.items }
    requires nothing { AreEmptyShares locked.old none }
    requires none { histories.old.items ≡ [] }
    requires room { table_seats.now.seats ≤ vec_capacity histories.old }
    ensures all { AreOfAll locked.old (commits_of left.items) table_seats.now.seats (plans_of histories.new.items)
        (receipts_of histories.new.items) }
    ensures ledgers { ledgers_in result ≡ ledgers_of (lines_of locked.old) }
    ensures parts { HaveParts table_seats.now.seats result }
    ensures amounts { amounts_in result ≡ totals_from 0 (length locked.old) (receipts_of histories.new.items) }
    ensures made { made_in result ≡ all_uses_from 0 (length locked.old) (plans_of histories.new.items) }
    ensures same { locked.new ≡ locked.old }
{
    let mut left = left;
    let mut parts = no_part(&mut left);
    let mut all = none;
    for number in 0..table_seats.count() {
        let DepartedSeat {
            history,
            mut shares,
            permit: _,
            table_share,
        } = remove_seat(&mut left, number);
        locked.show_known(&mut shares);
        all.gain(shares);
        parts.merge(table_share);
        history.show();
        histories.push_reserved(history);
    }
    if let Some(seat) = left.pop() {
        // The table's own ledger has no part for it.
        let DepartedSeat {
            history: _,
            shares: _,
            permit: _,
            table_share,
        } = seat;
        parts.merge(table_share);
        unreachable!()
    }
    all
}
