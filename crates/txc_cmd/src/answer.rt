// The program's answer to `run`, and to each action.
ghost use Rattle.std.specs.Prelude.{◌≡◌, IfOk, Some};
ghost use Rattle.txc_cmd_answer.specs.Answer.{answer_of, reported};
ghost use Rattle.txc_cmd.specs.Answer.{AnswersTo, ComesOf, MayRun, failed, run_fault_text, torn_text};
ghost use Rattle.txc_cmd_report.specs.Line.{bytes_of};
ghost use Rattle.txc_cmd_report.specs.Outcome.{IsComplete, outcome_of};
ghost use Rattle.txc_cmd_script.specs.Reading.{script_in};

use std::alloc::{AllocError, Global};
use std::sync::Wait;
use std::thread::Threads;
use txc_cmd_answer::{
    Answer, check_answer, explore_answer, fault_answer, outcome_answer, read_owned, replay_answer,
};
use txc_cmd_io::Action;
use txc_cmd_report::{Outcome, Text};
use txc_cmd_script::{Script, ScriptFault};
use txc_cmd_threads::{RunFault, run_threads};

/// Returns the line of a torn act. Fails if allocation fails.
fn torn_line(alloc: Global, seat: u16, chan: u16, place: usize) -> Result<Text, AllocError>
    ensures { IfOk result (λ text. bytes_of text ≡ torn_text seat chan place) }
{
    let mut line = String::new(alloc);
    write!(line, "fault: torn at seat {seat} chan {chan} ")?;
    writeln!(line, "place {place}")?;
    Ok(Text::Made(line))
}

/// Returns the line of a fault of the threads. Fails if allocation fails. Allocates only for a torn act.
fn run_fault_line(alloc: Global, fault: &RunFault) -> Result<Text, AllocError>
    ensures { IfOk result (λ text. bytes_of text ≡ run_fault_text fault.now) }
{
    match fault {
        RunFault::NoThread => Ok(Text::Fixed("fault: no thread\n")),
        RunFault::Torn {
            seat,
            chan,
            place,
            ..
        } => torn_line(alloc, *seat, *chan, *place),
        RunFault::NoMemory => Ok(Text::Fixed("fault: no memory\n")),
    }
}

/// Returns the answer to a fault of the threads. Fails if allocation fails.
fn run_fault_answer(alloc: Global, fault: RunFault) -> Result<Answer, AllocError>
    ensures { IfOk result (λ a. answer_of a ≡ failed fault) }
{
    let line = run_fault_line(alloc, &fault);
    drop(fault);
    Ok(Answer {
        text: line?,
        status: 1,
    })
}

/// Returns the answer to an outcome of the threads. Fails if allocation fails.
fn run_outcome_answer(alloc: Global, outcome: Outcome) -> Result<Answer, AllocError>
    requires { IsComplete outcome }
    ensures { IfOk result (λ a. answer_of a ≡ reported (outcome_of outcome)) }
{
    outcome_answer(alloc, &outcome).map_err(|_| AllocError)
}

/// Runs a script with one thread per seat, and returns the answer. Frees the script before it writes the report. Fails
/// if the answer cannot be allocated. Blocks until all threads have ended.
fn threads_answer<H: Threads + Wait + Sync>(
    rt: &H,
    alloc: Global,
    script: Script,
) -> Result<Answer, AllocError>
    ensures { IfOk result (λ a. ComesOf script (answer_of a)) }
{
    script.show();
    let ran = run_threads(rt, alloc, &script);
    drop(script);
    match ran {
        Ok(outcome) => run_outcome_answer(alloc, outcome),
        Err(fault) => run_fault_answer(alloc, fault),
    }
}

/// Returns the answer to `run` of a script's text. Fails if allocation fails. Blocks until all threads have ended.
fn run_answer<H: Threads + Wait + Sync>(
    rt: &H,
    alloc: Global,
    bytes: Vec<u8>,
) -> Result<Answer, AllocError>
    ensures { IfOk result (λ a. MayRun (script_in bytes.items) (answer_of a)) }
{
    match read_owned(alloc, bytes) {
        Ok(script) => threads_answer(rt, alloc, script),
        Err(ScriptFault::NoMemory) => Err(AllocError),
        Err(fault) => fault_answer(alloc, fault),
    }
}

/// Returns the answer to an action on a script's text. `Run` blocks until the seats' threads have ended. Fails if
/// allocation fails.
pub(crate) fn make_answer<H: Threads + Wait + Sync>(
    rt: &H,
    alloc: Global,
    action: Action,
    bytes: Vec<u8>,
) -> Result<Answer, AllocError>
    ensures { IfOk result (λ a. AnswersTo (Some action) bytes.items (answer_of a)) }
{
    match action {
        Action::Check => check_answer(alloc, bytes.as_slice()),
        Action::Replay => replay_answer(rt, alloc, bytes),
        Action::Explore => explore_answer(rt, alloc, bytes),
        Action::Run => run_answer(rt, alloc, bytes),
    }
}
