// The transactions that the audit runs again.
use txc_txn_check::Checked;

/// The transactions of all seats, each seat's in their order, however they are stored.
pub trait Transactions {
    ghost use Rattle.std.specs.Prelude.{◌≡◌, ◌<◌, List, length, slice_index_or};
    ghost use Rattle.txc_txn_check.specs.Limits.{CheckedView};
    ghost use Rattle.txc_table_audit.specs.ReceiptKeys.{at_seat, no_plan};

    /// The transactions of each seat.
    ghost plans: { Self → List (List CheckedView) };

    /// Returns the number of seats.
    fn seats(&self) -> usize
        ensures { result ≡ length (plans self.now) };

    /// Returns the number of transactions of a seat.
    fn count(&self, seat: usize) -> usize
        requires { seat < length (plans self.now) }
        ensures { result ≡ length (at_seat (plans self.now) seat) };

    /// Returns the transaction of a seat with this number, from 0.
    fn transaction(&self, seat: usize, number: usize) -> &Checked
        requires there { seat < length (plans self.now) }
        requires within { number < length (at_seat (plans self.now) seat) }
        ensures { result.now ≡ slice_index_or (at_seat (plans self.now) seat) number no_plan };
}

/// A list of transactions for each seat.
#[derive(Drop)]
pub(crate) struct Lists<'a>(pub(crate) &'a [Vec<Checked>]);

impl Transactions for Lists<'_> {
    ghost use Rattle.std.specs.Prelude.{map};

    ghost plans = { λ lists. map (λ seat. seat.items) lists.0.now };

    fn seats(&self) -> usize {
        self.0.len()
    }

    fn count(&self, seat: usize) -> usize {
        self.0[seat].len()
    }

    fn transaction(&self, seat: usize, number: usize) -> &Checked {
        &self.0[seat][number]
    }
}
