//! `chanrun check|replay|explore < script`: checks a script, or runs it in one thread and prints its report, or the ends
//! of all its orders. It is `chanrun` without `run`. It uses fewer crates, so it is proved sooner.
#![tactic(auto)]

use std::alloc::AllocError;
use std::process::ExitCode;
use txc_cmd_answer::{check_or_replay, end_without_memory, read_args};

fn main(rt: HostRuntime) -> ExitCode {
    let mut input = rt.stdin();
    let mut output = rt.stdout();
    let status = match read_args(&rt) {
        Ok(words) => check_or_replay(&rt, rt.alloc(), words, &mut input, &mut output),
        Err(AllocError) => end_without_memory(&mut output),
    };
    ExitCode::from(status)
}
