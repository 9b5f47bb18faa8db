//! The channels that can take part in one transaction, for a program that is not written in Rattle. A domain of
//! channels with seats takes numbers and arrays, and does one request at a time. Scripts are checked or replayed from
//! their bytes. `yalwythen_c` exports these functions to C.
//!
//! No function blocks. A function allocates only if it can return an error or a code for a failed allocation.
#![tactic(auto)]

mod account;
mod any;
mod call_result;
mod channels;
mod domain;
mod limits;
mod numbers;
mod open;
mod raw_steps;
mod requests;
mod script;

pub use account::Record;
pub use any::{Domain, drop_domain};
pub use call_result::CallResult;
pub use numbers::is_bound;
pub use raw_steps::RawStep;
pub use script::{CheckResult, ReplayResult, check, replay};
