//! The program's output for `check`, `replay`, `explore` and faults.
//!
//! [`check_or_replay`] is a whole program with `check`, `replay` and `explore`, over any reader and writer.
//!
//! A function that returns no `Result` does not allocate, except `respond` and `check_or_replay`: if allocation fails,
//! their output is the line of that fault. A function blocks only if its handle, reader or writer can block.
#![tactic(auto)]

mod answer;
mod program;

pub use answer::{
    Answer, check_answer, explore_answer, fault_answer, no_memory_answer, outcome_answer,
    read_owned, refusal, replay_answer, usage_answer,
};
pub use program::{check_or_replay, end_without_memory, write_answer};
pub use txc_cmd_io::read_args;
