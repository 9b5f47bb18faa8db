//! Channels in memory of their callers, for a program that is not written in Rattle, and transactions on them. A
//! channel is an object of its own, which the caller locks by itself. A transaction is given the channels that it
//! names. `yalwythen_channel_c` exports these functions to C.
//!
//! No function blocks. A function allocates only if it can return an error or a code for a failed allocation.
#![tactic(auto)]

mod account;
mod call_result;
mod chan_box;
mod channel;
mod channels;
mod enlisted;
mod enlisting;
mod limits;
mod numbers;
mod one_list;
mod one_move;
mod one_operation;
mod open;
mod raw_steps;
mod requests;
mod state;
mod txn;

pub use account::Record;
pub use call_result::CallResult;
pub use channel::{Channel, drop_channel};
pub use numbers::is_bound;
pub use raw_steps::RawStep;
pub use txn::{Txn, drop_txn};
