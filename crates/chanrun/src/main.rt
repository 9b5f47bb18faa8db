//! `chanrun check|replay|explore|run < script`: checks a script, or runs it and prints its report, or the ends of all
//! its orders.
#![tactic(auto)]

use std::alloc::AllocError;
use std::process::ExitCode;
use txc_cmd::{command, end_without_memory, read_args};

fn main(rt: HostRuntime) -> ExitCode {
    let mut input = rt.stdin();
    let mut output = rt.stdout();
    let status = match read_args(&rt) {
        Ok(words) => command(&rt, rt.alloc(), words, &mut input, &mut output),
        Err(AllocError) => end_without_memory(&mut output),
    };
    ExitCode::from(status)
}
