//! The audit: whether a report is what one thread would have given.
//!
//! A function that cannot return `NoMemory` or `AllocError` does not allocate. Only a function that takes `R: Wait` can
//! block.
#![tactic(auto)]

mod condition;
mod fault;
mod history;
mod key;
mod order;
mod ranked;
mod rerun;
mod seats;
mod transactions;

pub use condition::{Condition, find_unmet, find_unmet_of};
pub use fault::AuditFault;
pub use history::{audit, audit_of};
pub use ranked::Ranked;
pub use transactions::Transactions;
