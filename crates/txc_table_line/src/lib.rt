//! A line of a table: a channel with its ledgers under a lock, what a seat has of the line, and the line in a
//! transaction. Which line a value belongs to is a value itself, [`LineId`](crate::specs::Line) in a contract.
//!
//! A function that cannot return `NoMemory` or `AllocError` does not allocate. A function without a `Wait` or `Append`
//! handle does not block.
#![tactic(auto)]

mod ledger_shares;
mod line_chan;
mod line_guard;
mod line_lock;
mod locked_line;
mod mark;
mod seat_share;
mod snapshot_kind;

pub use ledger_shares::LedgerShares;
pub use line_chan::LineChan;
pub use line_guard::LineGuard;
pub use line_lock::{AsLineLock, LineInvariant, LineLock};
pub use locked_line::LockedLine;
pub use mark::Mark;
pub use seat_share::SeatShare;
pub use snapshot_kind::{SnapshotKind, Summarized, WithLog, WithoutLog};
