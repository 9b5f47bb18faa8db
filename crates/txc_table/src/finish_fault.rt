// The reasons that a table is not finished.
ghost use Rattle.std.specs.Prelude.{◌≡◌};
ghost use Rattle.txc_table.specs.Refused.{finish_fault_code};

use crate::departed_seat::DepartedSeat;
use crate::table::Table;
use std::error::Error;
use std::fmt;
use txc_chan::{FullLog, Log};
use txc_table_seat::{AllReceipts, Receipts};
use txc_txn::Report;

/// The reason that a table is not finished. `SeatMissing` is tested before `NoMemory`.
#[derive(Drop)]
pub enum FinishFault<K: Log = FullLog, S: Receipts = AllReceipts> {
    /// A seat is not among those that have left. The fault returns the table and the seats.
    SeatMissing(Table<K>, Vec<DepartedSeat<K, S>>),
    /// Allocation failed. The fault returns the table and the seats.
    NoMemory(Table<K>, Vec<DepartedSeat<K, S>>),
    /// An act of a receipt is not the entry at its place, as the report shows. It is never returned, because each act
    /// is that entry. It remains for callers that name it.
    Torn {
        /// The number of the seat.
        seat: u16,
        /// The number of the channel.
        chan: u16,
        /// The act's place in the channel's log.
        place: usize,
        /// All channels and all receipts.
        report: Report,
    },
}

impl<K: Log, S: Receipts> FinishFault<K, S> {
    /// Returns the number of this fault, from 1.
    pub fn code(&self) -> u8
        ensures { result ≡ finish_fault_code self.now }
    {
        match self {
            FinishFault::SeatMissing(_, _) => 1,
            FinishFault::Torn { .. } => 2,
            FinishFault::NoMemory(_, _) => 3,
        }
    }
}

impl<K: Log, S: Receipts> fmt::Display for FinishFault<K, S> {
    ghost use Rattle.std.specs.Prelude.{Some};
    ghost use Rattle.txc_table.specs.Refused.{finish_fault_text};

    ghost output = { λ fault. Some (finish_fault_text fault) };

    fn fmt<W: fmt::Write>(&self, f: &mut fmt::Formatter<W>) -> fmt::Result {
        match self {
            FinishFault::SeatMissing(_, _) => f.write_str("a seat is missing"),
            FinishFault::NoMemory(_, _) => f.write_str("no memory"),
            FinishFault::Torn {
                seat,
                chan,
                place,
                ..
            } => { write!(f, "torn at seat {seat} chan {chan} place {place}") }
        }
    }
}

// The table and the seats are not shown.
impl<K: Log, S: Receipts> fmt::Debug for FinishFault<K, S> {
    fn fmt<W: fmt::Write>(&self, f: &mut fmt::Formatter<W>) -> fmt::Result {
        write!(f, "FinishFault({self})")
    }
}

impl<K: Log, S: Receipts> Error for FinishFault<K, S> {}
