// Whether each seat's receipts are in turn.
ghost use Rattle.std.specs.Prelude.{◌<◌, ◌≤◌, ◌↔◌, length, IsTrue, MatchOption};
ghost use Rattle.txc_base.specs.declared.limits.TheConstants.{MAX_SEATS_OF_LARGE};
ghost use Rattle.txc_txn_history.specs.Events.{AreInTurn, IsInTurn};
ghost use Rattle.txc_table_audit.specs.Refused.{IsFirstOut};

use txc_base::{List as Items, Tag};
use txc_txn::Receipt;

/// Returns whether a receipt with tag `tag` can come right after a receipt with tag `before`: its serial is greater,
/// and its stamp is not less.
fn follows(before: Tag, tag: Tag) -> bool
    ensures { IsTrue result ↔ ((before.serial < tag.serial) × (before.stamp ≤ tag.stamp)) }
{
    before.serial < tag.serial && before.stamp <= tag.stamp
}

/// Returns whether receipts name this seat, have rising serials, and have stamps that do not fall.
fn is_in_turn(seat: u16, receipts: &[Receipt]) -> bool
    ensures { IsTrue result ↔ IsInTurn seat receipts.now }
{
    for nth in 0..receipts.len() {
        let tag = receipts[nth].tag;
        if tag.seat != seat {
            return false;
        }
        if nth > 0 {
            if !follows(receipts[nth - 1].tag, tag) {
                return false;
            }
        }
    }
    true
}

/// Returns the first seat whose receipts are not in turn, or `None`.
pub fn find_out_of_order(receipts: &[Items<Receipt>]) -> Option<u16>
    requires { length receipts.now ≤ MAX_SEATS_OF_LARGE }
    ensures { MatchOption result (AreInTurn receipts.now) (λ seat. IsFirstOut receipts.now seat) }
{
    for seat in 0..receipts.len() {
        if !is_in_turn(seat as u16, receipts[seat].as_slice()) {
            return Some(seat as u16);
        }
    }
    None
}
