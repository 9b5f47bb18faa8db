//! What a seat has committed: its receipts, and how many acts of each sort they have in each channel. This crate knows
//! neither logs nor lines.
//!
//! A function that cannot return `AllocError` does not allocate. No function blocks.
#![tactic(auto)]

mod all_receipts;
mod history;
mod last_receipt;
mod padded_receipt;
mod receipts;
mod tally;

pub use all_receipts::AllReceipts;
pub use history::History;
pub use last_receipt::LastReceipt;
pub use padded_receipt::PaddedReceipt;
pub use receipts::Receipts;
