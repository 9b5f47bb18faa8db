// A seat of a table.
ghost use Rattle.std.specs.Prelude.{◌≡◌, ◌≤◌, ◌<◌, ◌+◌, ℕ, length, map, slice_get, None, Some, IfSome, IfNone};
ghost use Rattle.txc_base.specs.Counts.{is_put, is_took, is_other};
ghost use mathlib.Core.List.{IsPrefix};
ghost use Rattle.txc_table_report.specs.Gathered.{ReceiptsAreInLogs};
ghost use Rattle.txc_table_seat.specs.Seated.{AreReceiptsOf, StampsRise, count, last_receipt, no_commits};
ghost use Rattle.txc_table_seat.specs.Tally.{count_that};
ghost use Rattle.txc_table_lines.specs.Lines.{fresh_share, line_ids};
ghost use Rattle.txc_table.specs.Seat.{AllPlaced, new_seat, seen_at};

use crate::departed_seat::DepartedSeat;
use crate::line_access::LineAccess;
use std::alloc::Global;
use std::marker::Model;
use txc_base_ledger::Share;
use txc_chan::{FullLog, Log};
use txc_table_seat::{AllReceipts, History, PaddedReceipt, Receipts};
use txc_txn::Receipt;

/// A seat: a handle that runs transactions on its table, one at a time. It cannot be copied and must be consumed by
/// `Table::leave`. Its table is the one that it was made with. The type `S` decides whether it keeps all its receipts
/// or only the last one.
pub struct Seat<K: Log = FullLog, S: Receipts = AllReceipts> {
    pub(crate) history: History<S>,
    pub(crate) access: LineAccess<K>,
    // Only for proofs: the seat's part of its table's own ledger.
    pub(crate) table_share: Share,
    // Where the next receipt is written. Its memory is that of a receipt that is no longer read.
    pub(crate) draft: Box<PaddedReceipt>,
}

impl<K: Log, S: Receipts> Model for Seat<K, S> {
    ghost use Rattle.std.specs.Coded.{codes};
    ghost use Rattle.txc_txn_check.specs.contracts.step.Step as step;
    ghost use Rattle.txc_table_lines.specs.Lines.{line_ids};
    ghost use Rattle.txc_table.specs.Seat.{SeatView, IsSeated, seen_in};

    ghost Value = { SeatView };

    // Only for the proof: values of `Value` have a code, because the steps in them have one.
    ghost coded = { Prim.hlevel (codes, step.the_row.coded) };

    ghost view = { λ seat. record {
      commits = seat.history.commits;
      lines = record { ledger = seat.table_share.name; seats = seat.table_share.whole; all = line_ids seat.access.shares };
      seen = seen_in seat.access.shares;
    } };

    ghost invariant = { λ seat. IsSeated seat.access.shares seat.history.commits seat.history.channels
        seat.table_share.parts };
}

impl<K: Log, S: Receipts> Seat<K, S> {
    /// Creates a seat that has seen no entry, from a history without receipts, a draft, what a new seat has of each
    /// line and its permit, and a part of the table's own ledger.
    pub(crate) fn new(
        history: History<S>,
        draft: Box<PaddedReceipt>,
        access: LineAccess<K>,
        table_share: Share,
    ) -> Seat<K, S>
        requires new { history.commits ≡ no_commits history.commits.number }
        requires each { history.channels ≡ length access.shares }
        requires fresh { access.shares ≡ map fresh_share (line_ids access.shares) }
        requires part { table_share.parts ≡ 1 }
        ensures { result ≡ new_seat (record {
          ledger = table_share.name;
          seats = table_share.whole;
          all = line_ids
              access.shares;
        })
            history.commits.number }
    {
        Seat {
            history,
            access,
            table_share,
            draft,
        }
    }

    /// Returns the seat as one that has left.
    pub(crate) fn into_departed(self) -> DepartedSeat<K, S>
        ensures commits { result.commits ≡ self.commits }
        ensures lines { result.lines ≡ self.lines }
    {
        let Seat {
            history,
            access,
            table_share,
            draft: _,
        } = self;
        let LineAccess { shares, permit } = access;
        DepartedSeat {
            history,
            shares,
            permit,
            table_share,
        }
    }

    /// Returns the number of the seat.
    pub fn number(&self) -> u16
        ensures { result ≡ self.now.commits.number }
    {
        self.history.number()
    }

    /// Returns the number of transactions that the seat committed.
    pub fn count(&self) -> usize
        ensures { result ≡ length self.now.commits.receipts }
    {
        self.history.count()
    }

    /// Returns the receipt of the transaction that the seat committed last, or `None` before the first.
    pub fn last(&self) -> Option<&Receipt>
        ensures some { IfSome result (λ receipt. last_receipt self.now.commits.receipts ≡ Some receipt.now) }
        ensures none { IfNone result (last_receipt self.now.commits.receipts ≡ None) }
    {
        self.history.last()
    }

    /// Returns how many acts of the seat's receipts wrote to a channel or put an item back there.
    pub fn put(&self, chan: u16) -> u64
        ensures { result ≡ count_that is_put chan self.now.commits.receipts }
    {
        self.history.put(chan)
    }

    /// Returns how many acts of the seat's receipts took from a channel.
    pub fn took(&self, chan: u16) -> u64
        ensures { result ≡ count_that is_took chan self.now.commits.receipts }
    {
        self.history.took(chan)
    }

    /// Returns how many acts of the seat's receipts in a channel neither wrote, put back nor took.
    pub fn other(&self, chan: u16) -> u64
        ensures { result ≡ count_that is_other chan self.now.commits.receipts }
    {
        self.history.other(chan)
    }

    /// Proves that the seat's three counts together are its share. Does nothing at run time.
    pub fn show_counts(&self)
        ensures { (chan : ℕ) → count_that is_put chan self.now.commits.receipts
            + count_that is_took chan self.now.commits.receipts
            + count_that is_other chan self.now.commits.receipts ≡ count chan self.now.commits.receipts }
    {
        self.history.show_counts();
    }

    /// Proves what is true of every seat, and does nothing at run time. Its receipts have its number, and their serials
    /// are their numbers. In each receipt the places in one channel rise, and the stamps of the receipts rise. Each act
    /// is the entry at its place in what the seat has seen of the channel's log. Each transaction gave its receipt on
    /// channels whose logs the seat has seen, and left each channel that it declares with the receipt's stamp. Each
    /// receipt is of one transaction.
    pub fn show(&self)
        ensures own { AreReceiptsOf self.now.commits.number 0 self.now.commits.receipts }
        ensures stand { ReceiptsAreInLogs (seen_at self.now) self.now.commits.receipts }
        ensures stamped { StampsRise 0 self.now.commits.stamp self.now.commits.receipts }
        ensures placed { AllPlaced self.now }
        ensures even { length self.now.commits.plans ≡ length self.now.commits.receipts }
    {
        self.history.show();
    }

    /// Proves that, of what two seats of one table have seen of a channel's log, the longer begins with the shorter.
    /// The channel must be one of the table's. Does nothing at run time and needs no lock.
    pub fn show_order(&self, other: &Seat<K, S>, chan: u16)
        requires of { other.now.lines ≡ self.now.lines }
        requires there { chan < length self.now.lines.all }
        ensures { length (seen_at self.now chan) ≤ length (seen_at other.now chan)
            → IsPrefix (seen_at self.now chan) (seen_at other.now chan) }
    {
        self.access.shares.show_order(&other.access.shares, chan);
    }
}

impl<K: Log> Seat<K> {
    /// Returns the receipt with this number, from 0. Returns `None` if there is none.
    pub fn receipt(&self, number: usize) -> Option<&Receipt>
        ensures some { IfSome result (λ receipt. slice_get self.now.commits.receipts number ≡ Some receipt.now) }
        ensures none { IfNone result (length self.now.commits.receipts ≤ number) }
    {
        self.history.receipt(number)
    }
}
