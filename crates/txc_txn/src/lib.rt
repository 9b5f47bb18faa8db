//! Transactions with alternatives on held channels. They can be undone in place. `txc_txn_check` checks their steps.
//!
//! A function that cannot return an error does not allocate. A function without an `Append` handle does not block.
#![tactic(auto)]

mod at_once;
mod deed;
mod held;
mod hold;
mod law;
mod next_tag;
mod open_savepoint;
mod open_transaction;
mod plain;
mod ran;
mod receipt;
mod receipt_buffers;
mod receipt_pair;
mod receipt_single;
mod report;
mod run;
mod savepoint;
mod settle;
mod single;
mod trace;
mod undo;

pub use deed::Deed;
pub use held::{run_held, run_held_reusing, run_pending, settle_declared};
pub use hold::Hold;
pub use law::{one_operation_is_itself, two_operations_are_in_turn};
pub use next_tag::tag_after;
pub use open_savepoint::OpenSavepoint;
pub use open_transaction::OpenTransaction;
pub use plain::Plain;
pub use ran::Ran;
pub use receipt::Receipt;
pub use receipt_buffers::ReceiptBuffers;
pub use report::Report;
pub use run::Run;
pub use settle::Settle;
pub use single::run_one;
pub use trace::{StepOutcome, Trace};
pub use txc_txn_check::{Checked, Step, TxnFault};
pub use undo::{Marks, mark_all, undo_all};
