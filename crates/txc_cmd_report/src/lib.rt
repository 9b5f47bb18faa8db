//! The outcome of a script, and its text: the report of an outcome, and the line of a fault.
//!
//! A function that returns no `Result` does not allocate. No function blocks.
#![tactic(auto)]

mod line;
mod outcome;
mod report;
mod seat_end;

pub use line::{Text, fault_line};
pub use outcome::Outcome;
pub use report::report_text;
pub use seat_end::{SeatEnd, any_stalled, any_stopped};
