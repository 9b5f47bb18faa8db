//! A channel of any of the six kinds, with its log. The last entries of the log can be undone.
//!
//! A function that cannot return `AllocError` or `NoMemory` does not allocate. A function that does not take an
//! `Append` handle does not block.
#![tactic(auto)]

mod account;
mod answer;
mod body;
mod chan;
mod decl;
mod fault;
mod full_log;
mod ghost_list;
mod ghost_log;
mod log;
mod mode;
mod steps;
mod summary;

pub use account::Account;
pub use answer::Answer;
pub use chan::Chan;
pub use chan::commit::CommitOutcome;
pub use decl::{Decl, kinds_of};
pub use fault::ChanFault;
pub use full_log::FullLog;
pub use ghost_list::GhostList;
pub use ghost_log::GhostLog;
pub use log::Log;
pub use summary::Summary;
pub use txc_base_laws as laws;
pub use txc_cast::{Append, NonBlocking};
