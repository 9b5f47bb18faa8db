//! Runs a script with one thread per seat. Each thread runs its seat's transactions on a shared table.
//!
//! A public function that cannot return an error does not allocate. A function without a `Wait` handle does not block,
//! except `Gate::pass`.
#![tactic(auto)]

mod closing;
mod final_tries;
mod gate;
mod job;
mod pool;
mod run;
mod run_fault;
mod worker;

pub use gate::Gate;
pub use run::{run_gated, run_threads};
pub use run_fault::RunFault;
