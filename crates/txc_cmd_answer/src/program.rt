// The program of `check`, `replay` and `explore`, over any reader and writer.
ghost use Rattle.std.specs.Prelude.{◌≡◌, ◌≢◌, ◌+◌, ℕ, None, Some, IfOk, IfErr, map, string_bytes, take};
ghost use Rattle.std.specs.Io.KnownBytes.{Appends};
ghost use Rattle.txc_cmd_answer.specs.Answer.{MayAnswerBy, IsAnsweredBy, WroteWholeBy, NoRun, without_run};
ghost use Rattle.txc_cmd_answer.specs.Answer.{IsWritten, answer_of, faulty, refused_by};
ghost use Rattle.txc_cmd_io.specs.Bytes.{ConsumesAtMost};
ghost use Rattle.txc_cmd_io.specs.Words.{action_in};
ghost use Rattle.txc_cmd_script.specs.Reading.{max_bytes};

use crate::answer::{
    Answer, check_answer, explore_answer, fault_answer, no_memory_answer, refusal, replay_answer,
    usage_answer,
};
use std::alloc::{AllocError, Global};
use std::io::Read;
use txc_chan::Append;
use txc_cmd_io::{Action, ArgsFault, Output, parse_args, read_limited, write_text};
use txc_cmd_script::ScriptFault;

/// Returns the answer to `check` of a reader's bytes. Fails if allocation fails.
fn check_reader<R: Read>(alloc: Global, reader: &mut R) -> Result<Answer, AllocError>
    ensures may { IfOk result (λ a. MayAnswerBy NoRun (Some Action.Check) (R.remaining reader.old) (answer_of a)) }
    ensures most { ConsumesAtMost (max_bytes + 1) (R.remaining reader.old) (R.remaining reader.new) }
{
    match read_limited(alloc, reader) {
        Ok(bytes) => check_answer(alloc, bytes.as_slice()),
        Err(fault) => fault_answer(alloc, fault),
    }
}

/// Returns the answer to `replay` of a reader's bytes. Fails if allocation fails.
fn replay_reader<A: Append, R: Read>(
    rt: &A,
    alloc: Global,
    reader: &mut R,
) -> Result<Answer, AllocError>
    ensures may { IfOk result (λ a. MayAnswerBy NoRun (Some Action.Replay) (R.remaining reader.old) (answer_of a)) }
    ensures most { ConsumesAtMost (max_bytes + 1) (R.remaining reader.old) (R.remaining reader.new) }
{
    match read_limited(alloc, reader) {
        Ok(bytes) => replay_answer(rt, alloc, bytes),
        Err(fault) => fault_answer(alloc, fault),
    }
}

/// Returns the answer to `explore` of a reader's bytes. Fails if allocation fails.
fn explore_reader<A: Append, R: Read>(
    rt: &A,
    alloc: Global,
    reader: &mut R,
) -> Result<Answer, AllocError>
    ensures may { IfOk result (λ a. MayAnswerBy NoRun (Some Action.Explore) (R.remaining reader.old) (answer_of a)) }
    ensures most { ConsumesAtMost (max_bytes + 1) (R.remaining reader.old) (R.remaining reader.new) }
{
    match read_limited(alloc, reader) {
        Ok(bytes) => explore_answer(rt, alloc, bytes),
        Err(fault) => fault_answer(alloc, fault),
    }
}

/// Returns the answer to an action on a reader's bytes. Fails if allocation fails.
fn find_answer<A: Append, R: Read>(
    rt: &A,
    alloc: Global,
    action: Action,
    reader: &mut R,
) -> Result<Answer, AllocError>
    ensures may { IfOk result (λ a. MayAnswerBy NoRun (without_run (Some action)) (R.remaining reader.old)
        (answer_of a)) }
    ensures unread { without_run (Some action) ≡ None → reader.new ≡ reader.old }
    ensures most { ConsumesAtMost (max_bytes + 1) (R.remaining reader.old) (R.remaining reader.new) }
{
    match action {
        Action::Check => check_reader(alloc, reader),
        Action::Replay => replay_reader(rt, alloc, reader),
        Action::Explore => explore_reader(rt, alloc, reader),
        Action::Run => Ok(usage_answer()),
    }
}

/// Returns the answer to an action on a reader's bytes. If allocation fails, it is the line of that fault.
fn answer_or_no_memory<A: Append, R: Read>(
    rt: &A,
    alloc: Global,
    action: Action,
    reader: &mut R,
) -> Answer
    ensures may { MayAnswerBy NoRun (without_run (Some action)) (R.remaining reader.old) (answer_of result) }
    ensures unread { without_run (Some action) ≡ None → reader.new ≡ reader.old }
    ensures most { ConsumesAtMost (max_bytes + 1) (R.remaining reader.old) (R.remaining reader.new) }
{
    match find_answer(rt, alloc, action, reader) {
        Ok(answer) => answer,
        Err(_) => no_memory_answer(),
    }
}

/// Returns the answer to what words request, and a reader's bytes. Reads nothing if they request nothing.
fn respond<A: Append, R: Read>(
    rt: &A,
    alloc: Global,
    request: Result<Action, ArgsFault>,
    reader: &mut R,
) -> Answer
    ensures refused { IfErr request (λ e. answer_of result ≡ refused_by e) }
    ensures may { IfOk request (λ a. MayAnswerBy NoRun (without_run (Some a)) (R.remaining reader.old)
        (answer_of result)) }
    ensures unread_run { IfOk request (λ a. without_run (Some a) ≡ None → reader.new ≡ reader.old) }
    ensures unread { IfErr request (λ e. reader.new ≡ reader.old) }
    ensures most { ConsumesAtMost (max_bytes + 1) (R.remaining reader.old) (R.remaining reader.new) }
{
    match request {
        Ok(action) => answer_or_no_memory(rt, alloc, action, reader),
        Err(fault) => refusal(fault),
    }
}

/// Writes the text of an answer, flushes the writer and returns the answer's status. If a write fails or takes no bytes,
/// or the flush fails, the status is 1, and part of the text can have been written.
pub fn write_answer<W: Output>(writer: &mut W, answer: &Answer) -> u8
    ensures part { (n : ℕ) × Appends (W.contents writer.old) (W.contents writer.new)
        (take n (answer_of answer.now).text) }
    ensures written { IsWritten (answer_of answer.now) (W.contents writer.old) (W.contents writer.new)
        (W.IsFlushed writer.new) (W.HasFailed writer.new) result }
{
    if write_text(writer, answer.text.bytes()) {
        answer.status
    } else {
        1
    }
}

/// Runs the program without threads: reads its words (the first is its name) and a script, and writes the output of
/// `check`, `replay` or `explore`: an `ok` line, a report, the ends of all orders or the line of a fault. For any other
/// words, including `run`, it reads no script and writes the usage line.
///
/// Returns the exit status: 0 on success, 1 on a fault or if a seat was stopped, 2 after the usage line, 3 if a seat
/// stalled. The whole text is written and the writer flushed, unless the writer fails or takes no bytes. Then the
/// status is 1, and part of the text can have been written. If allocation fails, the text is the line of that fault.
///
/// `rt` writes to the broadcast channels of a script. The program reads at most 1,048,577 bytes.
pub fn check_or_replay<A: Append, R: Read, W: Output>(
    rt: &A,
    alloc: Global,
    words: Vec<String>,
    reader: &mut R,
    writer: &mut W,
) -> u8
    ensures run { IsAnsweredBy NoRun (without_run (action_in (map string_bytes words.items))) (R.remaining reader.old)
        (W.contents writer.old) (W.contents writer.new) (W.IsFlushed writer.new) (W.HasFailed writer.new) result }
    ensures whole { result ≢ 1 → WroteWholeBy NoRun (without_run (action_in (map string_bytes words.items)))
        (R.remaining reader.old) (W.contents writer.old) (W.contents writer.new) result }
    ensures unread { without_run (action_in (map string_bytes words.items)) ≡ None → reader.new ≡ reader.old }
    ensures most { ConsumesAtMost (max_bytes + 1) (R.remaining reader.old) (R.remaining reader.new) }
{
    let request = parse_args(alloc, words.as_slice());
    let answer = respond(rt, alloc, request, reader);
    write_answer(writer, &answer)
}

/// Ends the program if allocation fails before it has its words: writes the line of that fault, flushes the writer, and
/// returns status 1. If the writer fails or takes no bytes, part of the line can have been written.
pub fn end_without_memory<W: Output>(writer: &mut W) -> u8
    ensures status { result ≡ 1 }
    ensures part { (n : ℕ) × Appends (W.contents writer.old) (W.contents writer.new)
        (take n (faulty ScriptFault.NoMemory).text) }
    ensures written { IsWritten (faulty ScriptFault.NoMemory) (W.contents writer.old) (W.contents writer.new)
        (W.IsFlushed writer.new) (W.HasFailed writer.new) result }
{
    write_answer(writer, &no_memory_answer())
}
