//! Replays a script in rounds, in one thread.
//!
//! A function that returns no `Result` does not allocate. A function blocks only if it has an `Append` handle that can
//! block.
#![tactic(auto)]

mod channels;
mod output;
mod rounds;
mod seat_progress;

pub use channels::Channels;
pub use output::replay_text;
pub use rounds::{fresh_progress, replay, show_last_round};
pub use seat_progress::SeatProgress;
