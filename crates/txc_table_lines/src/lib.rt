//! The lines of a table: their locks, what a seat has of them, the lines in a transaction, and the end of a table.
//!
//! A function that cannot return `NoMemory` or `AllocError` does not allocate. A function without a `Wait` or `Append`
//! handle does not block.
#![tactic(auto)]

mod accounts;
mod choice;
mod collected_shares;
mod gate;
mod guards;
mod hold;
mod lines;
mod lock_buffer;
mod lock_permit;
mod locked_hold;
mod locked_lines;
mod one_operation;
mod opening;
mod seat_shares;
mod two_operations;

pub use choice::Choice;
pub use collected_shares::CollectedShares;
pub use gate::{Gate, HeldLocks};
pub use guards::Guards;
pub use lines::{Lines, LockOrder};
pub use lock_buffer::LockBuffer;
pub use lock_permit::{LockPermit, LockPermits};
pub use locked_lines::LockedLines;
pub use one_operation::AtOnce;
pub use opening::open;
pub use seat_shares::SeatShares;
pub use two_operations::Move;
