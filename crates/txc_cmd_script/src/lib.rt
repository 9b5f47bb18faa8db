//! Reads scripts of channels, seats and transactions from their bytes. A function that cannot return `NoMemory` does
//! not allocate. No function blocks.
#![tactic(auto)]

mod channel;
mod fault;
mod operation;
mod read;
mod script;
mod step_name;
mod steps;
mod tree;

pub use fault::ScriptFault;
pub use read::{MAX_BYTES, read_script};
pub use script::Script;
