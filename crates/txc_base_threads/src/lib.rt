//! Runs a task in each of several threads and waits for their outputs.
#![tactic(auto)]

mod start_error;
mod task;
mod threads;

pub use start_error::StartError;
pub use task::Task;
pub use threads::{run_all, show_shared};
