//! A table of channels, each under a lock of its own, and the seats that run transactions on them. The audit of a
//! report is another crate.
//!
//! A function that cannot report a failed allocation does not allocate. A public function can block only if it takes
//! `R: Wait` or a gate.
#![tactic(auto)]

mod closing;
mod deadline;
mod departed_seat;
mod finish_fault;
mod gate;
mod gathered;
mod line_access;
mod making;
mod seat;
mod shelves;
mod table;
mod table_seats;
mod tried;

pub use departed_seat::DepartedSeat;
pub use finish_fault::FinishFault;
pub use seat::Seat;
pub use table::{IdleTable, Table};
pub use tried::{Ended, Tried};
pub use txc_table_lines::{Gate, HeldLocks};
pub use txc_table_report::{Limits, TableFault};
pub use txc_table_seat::{AllReceipts, LastReceipt, Receipts};
