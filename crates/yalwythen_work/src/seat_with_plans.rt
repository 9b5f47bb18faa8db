// A seat with its transactions.
use crate::plans::Plans;
use crate::recording::Recording;
use std::marker::Model;
use txc_table::Seat;

/// A seat, and the transactions that were prepared and noted for it.
pub(crate) struct SeatWithPlans<K: Recording> {
    pub(crate) seat: Seat<K, K::Receipts>,
    pub(crate) plans: Plans,
}

impl<K: Recording> Model for SeatWithPlans<K> {
    ghost use Rattle.std.specs.Coded.{codes};
    ghost use Rattle.txc_txn_check.specs.contracts.step.Step as step;
    ghost use Rattle.yalwythen_work.specs.SeatWithPlans.{SeatWithPlansView};

    ghost Value = { SeatWithPlansView };

    // Only for the proof: values of `Value` have a code, because the steps in them have one.
    ghost coded = { Prim.hlevel (codes, step.the_row.coded) };

    ghost view = { λ both. record { seat = both.seat; plans = both.plans } };
}
