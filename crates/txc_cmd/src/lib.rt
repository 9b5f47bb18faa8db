//! The program `chanrun`: it reads a script and writes a report.
//!
//! [`command`] is the whole program over any reader and writer. This crate also exports the program's parts:
//! [`read_script`] reads a script, [`replay`] runs it in one thread, [`run_threads`] runs it with one thread per seat,
//! and [`report_text`] returns the report.
#![tactic(auto)]

mod answer;
mod program;

pub use program::command;
pub use txc_cmd_answer::end_without_memory;
pub use txc_cmd_io::read_args;
pub use txc_cmd_replay::{replay, replay_text};
pub use txc_cmd_report::{Outcome, SeatEnd, report_text};
pub use txc_cmd_script::{Script, ScriptFault, read_script};
pub use txc_cmd_threads::{Gate, RunFault, run_gated, run_threads};
