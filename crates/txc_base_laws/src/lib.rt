//! The laws of logs. They hold for every channel that is true to its log, and follow from the definitions of logs only.
//! Each law is the contract of a function that does nothing. A proof that needs the law calls the function.
#![tactic(auto)]

mod laws;

pub use laws::{counts, declared, determined, in_order, next, once, operation, stays_closed, undo};
