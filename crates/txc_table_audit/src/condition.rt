// The conditions of the audit.
ghost use Rattle.std.specs.Prelude.{◌≡◌, ◌<◌, ◌≤◌, ◌↔◌, None, length, map, slice_get, take, All, IsTrue, MatchOption};
ghost use Rattle.txc_base.specs.declared.limits.TheConstants.{MAX_CHANNELS_OF_LARGE};
ghost use Rattle.txc_chan.specs.Limits.{first_fault};
ghost use Rattle.txc_txn_check.specs.Steps.{Fits};
ghost use Rattle.txc_table_audit.specs.Conditions.{IsAuditable, IsFirstUnmet};
ghost use Rattle.txc_txn_history.specs.Events.{HasBegun};
ghost use Rattle.txc_table_audit.specs.ReceiptKeys.{at_seat};
ghost use Rattle.txc_chan.specs.Decls.{kinds_in};

use crate::transactions::{Lists, Transactions};
use txc_base::{Kind, List, MAX_CHANNELS_OF_LARGE, MAX_SEATS_OF_LARGE};
use txc_chan::Decl;
use txc_txn::{Receipt, Report};
use txc_txn_check::Checked;

/// A condition of the audit. The variants are in the order in which they are tested.
#[derive(Debug, Clone, Copy, PartialEq, Eq)]
pub enum Condition {
    /// There are at most 1,024 channels.
    FewChannels,
    /// Each channel can be made as declared.
    ChannelsCanBeMade,
    /// The report has an account for each channel.
    AccountForEach,
    /// There are at most 64 seats.
    FewSeats,
    /// The report has a list of receipts for each seat, no longer than the seat's transactions.
    ReceiptsForEach,
    /// Each operation of each transaction names a channel that exists and supports it, and reader 0 if it is a queue.
    TransactionsFit,
}

/// Returns the kinds of the channels, then `Queue`.
pub(crate) fn kinds_of(decls: &[Decl]) -> [Kind; MAX_CHANNELS_OF_LARGE]
    requires { length decls.now ≤ MAX_CHANNELS_OF_LARGE }
    ensures { take (length decls.now) result ≡ kinds_in decls.now }
{
    let mut kinds = [Kind::Queue; MAX_CHANNELS_OF_LARGE];
    for chan in 0..decls.len() {
        kinds[chan] = decls[chan].kind;
    }
    kinds
}

/// Returns whether each of these channels can be made.
fn can_be_made(decls: &[Decl]) -> bool
    ensures { IsTrue result ↔ (first_fault decls.now ≡ None) }
{
    for decl in decls {
        if decl.fault().is_some() {
            return false;
        }
    }
    true
}

/// Returns whether each seat has a list of receipts that is no longer than its transactions.
fn has_begun<T: Transactions>(receipts: &[List<Receipt>], transactions: &T) -> bool
    ensures { IsTrue result ↔ HasBegun receipts.now (T.plans transactions.now) }
{
    if receipts.len() != transactions.seats() {
        return false;
    }
    for seat in 0..receipts.len() {
        if receipts[seat].as_slice().len() > transactions.count(seat) {
            return false;
        }
    }
    true
}

/// Returns whether all transactions of a seat fit these kinds.
fn seat_fits<T: Transactions>(kinds: &[Kind], transactions: &T, seat: usize) -> bool
    requires { seat < length (T.plans transactions.now) }
    ensures { IsTrue result ↔ All (λ plan. Fits (slice_get kinds.now) plan.steps)
        (at_seat (T.plans transactions.now) seat) }
{
    for number in 0..transactions.count(seat) {
        if !transactions.transaction(seat, number).fits(kinds) {
            return false;
        }
    }
    true
}

/// Returns whether all transactions fit these kinds.
fn all_fit<T: Transactions>(kinds: &[Kind], transactions: &T) -> bool
    ensures { IsTrue result ↔ All (All (λ plan. Fits (slice_get kinds.now) plan.steps)) (T.plans transactions.now) }
{
    for seat in 0..transactions.seats() {
        if !seat_fits(kinds, transactions, seat) {
            return false;
        }
    }
    true
}

/// Returns the first condition of `audit_of` that is not met, however the transactions are stored. Returns `None` if
/// the report can be audited.
pub fn find_unmet_of<T: Transactions>(
    decls: &[Decl],
    report: &Report,
    transactions: &T,
) -> Option<Condition>
    ensures { MatchOption result
        (IsAuditable decls.now (T.plans transactions.now) report.now)
        (λ condition. IsFirstUnmet decls.now (T.plans transactions.now) report.now condition) }
{
    if decls.len() > MAX_CHANNELS_OF_LARGE {
        return Some(Condition::FewChannels);
    }
    if !can_be_made(decls) {
        return Some(Condition::ChannelsCanBeMade);
    }
    if report.accounts.as_slice().len() != decls.len() {
        return Some(Condition::AccountForEach);
    }
    if transactions.seats() > MAX_SEATS_OF_LARGE {
        return Some(Condition::FewSeats);
    }
    if !has_begun(report.receipts.as_slice(), transactions) {
        return Some(Condition::ReceiptsForEach);
    }
    if !all_fit(&kinds_of(decls)[..decls.len()], transactions) {
        return Some(Condition::TransactionsFit);
    }
    None
}

/// Returns the first condition of `audit` that is not met. Returns `None` if the report can be audited.
pub fn find_unmet(
    decls: &[Decl],
    report: &Report,
    transactions: &[Vec<Checked>],
) -> Option<Condition>
    ensures { MatchOption result
        (IsAuditable decls.now (map (λ seat. seat.items) transactions.now) report.now)
        (λ condition. IsFirstUnmet decls.now (map (λ seat. seat.items) transactions.now) report.now condition) }
{
    find_unmet_of(decls, report, &Lists(transactions))
}
