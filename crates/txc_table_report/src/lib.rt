//! Whether the receipts of seats and the logs of channels fit together, so that each entry is in one receipt; and which
//! tables can be made. This crate knows no locks.
//!
//! No function allocates or blocks.
#![tactic(auto)]

mod fault;
mod limits;
mod refusal;

pub use fault::TableFault;
pub use limits::Limits;
pub use refusal::table_fault;
