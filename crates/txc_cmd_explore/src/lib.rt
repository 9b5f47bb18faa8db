//! Explores every order of a script: which ends it can come to, each with an order that leads there.
//!
//! A function that returns no `Result` does not allocate. A function blocks only if it has an `Append` handle that can
//! block.
#![tactic(auto)]

mod follow;
mod found_end;
mod law;
mod orders;
mod seen;
mod state;
mod text;

pub use found_end::FoundEnd;
pub use law::{show_all_finish, show_replay_is_an_order};
pub use orders::{ExploreFault, explore};
pub use state::{Shape, State};
pub use text::{ends_status, ends_text};
