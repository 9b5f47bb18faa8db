// A seat that has left its table.
use std::marker::Model;
use txc_base_ledger::Share;
use txc_chan::{FullLog, Log};
use txc_table_lines::{LockPermit, SeatShares};
use txc_table_seat::{AllReceipts, History, Receipts};

/// A seat that has left its table, with its receipts. `K` and `S` are those of the table's logs and the seat's
/// receipts.
#[derive(Drop)]
pub struct DepartedSeat<K: Log = FullLog, S: Receipts = AllReceipts> {
    pub(crate) history: History<S>,
    pub(crate) shares: SeatShares<K>,
    pub(crate) permit: LockPermit,
    // Only for proofs: the seat's part of its table's own ledger.
    pub(crate) table_share: Share,
}

impl<K: Log, S: Receipts> Model for DepartedSeat<K, S> {
    ghost use Rattle.std.specs.Coded.{codes};
    ghost use Rattle.txc_txn_check.specs.contracts.step.Step as step;
    ghost use Rattle.txc_table_lines.specs.Lines.{line_ids};
    ghost use Rattle.txc_table.specs.Seat.{DepartedSeatView, IsSeated};

    ghost Value = { DepartedSeatView };

    // Only for the proof: values of `Value` have a code, because the steps in them have one.
    ghost coded = { Prim.hlevel (codes, step.the_row.coded) };

    ghost view = { λ seat. record {
      commits = seat.history.commits;
      lines = record { ledger = seat.table_share.name; seats = seat.table_share.whole; all = line_ids seat.shares };
    } };

    ghost invariant = { λ seat. IsSeated seat.shares seat.history.commits seat.history.channels
        seat.table_share.parts };
}
