//! Steps of a transaction, checked against the kinds of their channels and the limits.
//!
//! No function allocates or blocks, except `fmt`, whose writer can.
#![tactic(auto)]

mod checked;
mod fault;
mod fit;
mod limits;
mod step;
mod walk;

pub use checked::Checked;
pub use fault::TxnFault;
pub use limits::{MAX_DECLARED, MAX_NESTED, MAX_OPERATIONS};
pub use step::Step;
