//! Scripts of channels, seats and transactions: functions that read, replay and run them and write their reports.
//!
//! A function that cannot return an error does not allocate. A function without a handle does not block, except
//! `Gate::pass`. `replay` and `replay_text` block only if their handle can block.
pub use txc_cmd_replay::{replay, replay_text};
pub use txc_cmd_report::{Outcome, SeatEnd, report_text};
pub use txc_cmd_script::{Script, ScriptFault, read_script};
pub use txc_cmd_threads::{Gate, RunFault, run_gated, run_threads};
