// The answer of the program to each request.
ghost use Rattle.std.specs.Prelude.{◌≡◌, ◌≢◌, length, IfOk, IfErr, Ok, Err, string_bytes};
ghost use Rattle.txc_cmd_answer.specs.Answer.{answer_of, usage, faulty, ok_text, checked, reported, replayed};
ghost use Rattle.txc_cmd_answer.specs.Answer.{ComesOfAll, MayExplore, refused_by, status_of};
ghost use Rattle.txc_cmd_report.specs.Outcome.{IsComplete, outcome_of};
ghost use Rattle.txc_cmd_script.specs.Reading.{script_in};
ghost use Rattle.txc_cmd_replay.specs.Rounds.{rounds, transaction_count};

use std::alloc::{AllocError, Global};
use txc_base::Stop;
use txc_chan::Append;
use txc_cmd_explore::{ExploreFault, ends_status, ends_text, explore};
use txc_cmd_io::ArgsFault;
use txc_cmd_replay::replay;
use txc_cmd_report::{Outcome, SeatEnd, Text, any_stalled, any_stopped, fault_line, report_text};
use txc_cmd_script::{Script, ScriptFault, read_script};

/// The most orders that `explore` visits.
const MOST_ORDERS: u32 = 4_000_000;

/// The program's whole output, and its exit status.
#[derive(Debug, Drop)]
pub struct Answer {
    pub text: Text,
    pub status: u8,
}

/// Returns the answer to words that are not a command: the usage line, with status 2.
pub fn usage_answer() -> Answer
    ensures { answer_of result ≡ usage }
{
    Answer {
        text: Text::Fixed("usage: chanrun check|replay|run < script\n"),
        status: 2,
    }
}

/// Returns the answer after an allocation failed: the line of that fault, with status 1.
pub fn no_memory_answer() -> Answer
    ensures { answer_of result ≡ faulty ScriptFault.NoMemory }
{
    Answer {
        text: Text::Fixed("fault: no memory\n"),
        status: 1,
    }
}

/// Returns the answer to words that request nothing.
pub fn refusal(fault: ArgsFault) -> Answer
    ensures { answer_of result ≡ refused_by fault }
{
    match fault {
        ArgsFault::Usage => usage_answer(),
        ArgsFault::NoMemory => no_memory_answer(),
    }
}

/// Returns the answer to a fault: its line, with status 1. Fails if allocation fails.
pub fn fault_answer(alloc: Global, fault: ScriptFault) -> Result<Answer, AllocError>
    ensures { IfOk result (λ a. answer_of a ≡ faulty fault) }
{
    let text = fault_line(alloc, fault)?;
    Ok(Answer { text, status: 1 })
}

/// Returns the number of transactions of all seats. A `usize` could be too small for sixteen lengths.
fn count_transactions(script: &Script) -> u128
    ensures { result ≡ transaction_count script.now.seats }
{
    script.show();
    let mut count = 0;
    for seat in script.seats() {
        count += seat.len() as u128;
    }
    count
}

/// Returns the line of a valid script. Fails if allocation fails.
fn ok_line(alloc: Global, script: &Script) -> Result<String, AllocError>
    ensures { IfOk result (λ line. string_bytes line
        ≡ ok_text (length script.now.decls) (length script.now.seats) (transaction_count script.now.seats)) }
{
    let channels = script.decls().len();
    let seats = script.seats().len();
    let transactions = count_transactions(script);
    let mut line = String::new(alloc);
    write!(line, "ok {channels} channels ")?;
    write!(line, "{seats} seats ")?;
    writeln!(line, "{transactions} transactions")?;
    Ok(line)
}

/// Reads a script from its text, and frees the text. Fails with the first fault of the text, or with `NoMemory` if
/// allocation fails.
pub fn read_owned(alloc: Global, bytes: Vec<u8>) -> Result<Script, ScriptFault>
    ensures ok { IfOk result (λ script. script_in bytes.items ≡ Ok script) }
    ensures err { IfErr result (λ e. e ≢ ScriptFault.NoMemory → script_in bytes.items ≡ Err e) }
{
    read_script(alloc, bytes.as_slice())
}

/// Returns the answer to `check` of a script's text: the line of a valid script, or of its first fault. Fails if
/// allocation fails.
pub fn check_answer(alloc: Global, bytes: &[u8]) -> Result<Answer, AllocError>
    ensures { IfOk result (λ a. answer_of a ≡ checked (script_in bytes.now)) }
{
    match read_script(alloc, bytes) {
        Ok(script) => {
            let line = ok_line(alloc, &script)?;
            Ok(Answer {
                text: Text::Made(line),
                status: 0,
            })
        }
        Err(ScriptFault::NoMemory) => Err(AllocError),
        Err(fault) => fault_answer(alloc, fault),
    }
}

/// Returns the exit status for how the seats ended.
fn end_status(ends: &[SeatEnd]) -> u8
    ensures { result ≡ status_of ends.now }
{
    if any_stopped(ends) {
        1
    } else if any_stalled(ends) {
        3
    } else {
        0
    }
}

/// Returns the report of an outcome, with the status for how its seats ended. Fails with `NoMemory` if allocation
/// fails.
pub fn outcome_answer(alloc: Global, outcome: &Outcome) -> Result<Answer, Stop>
    requires { IsComplete outcome.now }
    ensures { IfOk result (λ a. answer_of a ≡ reported (outcome_of outcome.now)) }
{
    let text = report_text(alloc, outcome)?;
    Ok(Answer {
        text: Text::Made(text),
        status: end_status(outcome.ends.as_slice()),
    })
}

/// Replays a script in this thread, and returns its report. Frees the script before it writes the report. Fails with
/// `NoMemory` if allocation fails.
fn report_answer<A: Append>(rt: &A, alloc: Global, script: Script) -> Result<Answer, Stop>
    ensures { IfOk result (λ a. answer_of a ≡ reported (rounds script)) }
{
    let outcome = replay(rt, alloc, &script)?;
    drop(script);
    outcome_answer(alloc, &outcome)
}

/// Returns the answer to `replay` of a script's text: the report of the script, which this thread runs in rounds, or
/// the line of its first fault. Frees the text before it runs the script, and the script before it writes the report.
/// Fails if allocation fails. `rt` writes to the broadcast channels.
pub fn replay_answer<A: Append>(rt: &A, alloc: Global, bytes: Vec<u8>) -> Result<Answer, AllocError>
    ensures { IfOk result (λ a. answer_of a ≡ replayed (script_in bytes.items)) }
{
    match read_owned(alloc, bytes) {
        Ok(script) => report_answer(rt, alloc, script).map_err(|_| AllocError),
        Err(ScriptFault::NoMemory) => Err(AllocError),
        Err(fault) => fault_answer(alloc, fault),
    }
}

/// Explores every order of a script in this thread, and returns its ends, or the line of the fault that there are too
/// many orders. Fails if allocation fails.
fn explored_answer<A: Append>(rt: &A, alloc: Global, script: Script) -> Result<Answer, AllocError>
    ensures { IfOk result (λ a. ComesOfAll script (answer_of a)) }
{
    match explore(rt, alloc, &script, MOST_ORDERS) {
        Ok(found) => {
            let text = ends_text(alloc, found.as_slice())?;
            Ok(Answer {
                text: Text::Made(text),
                status: ends_status(found.as_slice()),
            })
        }
        Err(ExploreFault::TooMany) => Ok(Answer {
            text: Text::Fixed("fault: too many orders\n"),
            status: 1,
        }),
        Err(ExploreFault::NoMemory) => Err(AllocError),
    }
}

/// Returns the answer to `explore` of a script's text: the ends of all its orders, or the line of its first fault.
/// Frees the text before it explores the script. Fails if allocation fails. `rt` writes to the broadcast channels.
pub fn explore_answer<A: Append>(
    rt: &A,
    alloc: Global,
    bytes: Vec<u8>,
) -> Result<Answer, AllocError>
    ensures { IfOk result (λ a. MayExplore (script_in bytes.items) (answer_of a)) }
{
    match read_owned(alloc, bytes) {
        Ok(script) => explored_answer(rt, alloc, script),
        Err(ScriptFault::NoMemory) => Err(AllocError),
        Err(fault) => fault_answer(alloc, fault),
    }
}
