// The program, over any reader and writer.
ghost use Rattle.std.specs.Prelude.{◌≡◌, ◌≢◌, ◌+◌, None, Some, IfOk, IfErr, map, string_bytes};
ghost use Rattle.txc_cmd_answer.specs.Answer.{MayAnswerBy, answer_of, refused_by};
ghost use Rattle.txc_cmd.specs.Answer.{IsAnswered, MayRun, WroteWhole};
ghost use Rattle.txc_cmd_io.specs.Bytes.{ConsumesAtMost};
ghost use Rattle.txc_cmd_io.specs.Words.{action_in};
ghost use Rattle.txc_cmd_script.specs.Reading.{max_bytes};

use crate::answer::make_answer;
use std::alloc::{AllocError, Global};
use std::io::Read;
use std::sync::Wait;
use std::thread::Threads;
use txc_cmd_answer::{Answer, fault_answer, no_memory_answer, refusal, write_answer};
use txc_cmd_io::{Action, ArgsFault, Output, parse_args, read_limited};

/// Returns the answer to an action on a reader's bytes. Fails if allocation fails.
fn find_answer<H: Threads + Wait + Sync, R: Read>(
    rt: &H,
    alloc: Global,
    action: Action,
    reader: &mut R,
) -> Result<Answer, AllocError>
    ensures may { IfOk result (λ a. MayAnswerBy MayRun (Some action) (R.remaining reader.old) (answer_of a)) }
    ensures most { ConsumesAtMost (max_bytes + 1) (R.remaining reader.old) (R.remaining reader.new) }
{
    match read_limited(alloc, reader) {
        Ok(bytes) => make_answer(rt, alloc, action, bytes),
        Err(fault) => fault_answer(alloc, fault),
    }
}

/// Returns the answer of `find_answer`, or the answer `fault: no memory` if `find_answer` fails. Does not fail.
fn answer_or_no_memory<H: Threads + Wait + Sync, R: Read>(
    rt: &H,
    alloc: Global,
    action: Action,
    reader: &mut R,
) -> Answer
    ensures may { MayAnswerBy MayRun (Some action) (R.remaining reader.old) (answer_of result) }
    ensures most { ConsumesAtMost (max_bytes + 1) (R.remaining reader.old) (R.remaining reader.new) }
{
    match find_answer(rt, alloc, action, reader) {
        Ok(answer) => answer,
        Err(_) => no_memory_answer(),
    }
}

/// Returns the answer to what words request, and a reader's bytes. Reads nothing if they request nothing. Does not
/// fail.
fn respond<H: Threads + Wait + Sync, R: Read>(
    rt: &H,
    alloc: Global,
    request: Result<Action, ArgsFault>,
    reader: &mut R,
) -> Answer
    ensures refused { IfErr request (λ e. answer_of result ≡ refused_by e) }
    ensures unread { IfErr request (λ e. reader.new ≡ reader.old) }
    ensures may { IfOk request (λ a. MayAnswerBy MayRun (Some a) (R.remaining reader.old) (answer_of result)) }
    ensures most { ConsumesAtMost (max_bytes + 1) (R.remaining reader.old) (R.remaining reader.new) }
{
    match request {
        Ok(action) => answer_or_no_memory(rt, alloc, action, reader),
        Err(fault) => refusal(fault),
    }
}

/// Runs the program: reads its words (the first is its name) and a script, and writes an `ok` line, a report, the ends
/// of all orders or the line of a fault. For words that are not a command, it reads no script and writes the usage line.
///
/// Returns the exit status: 0 on success, 1 on a fault or if a seat was stopped, 2 after the usage line, 3 if a seat
/// stalled. The whole text is written and the writer flushed, unless the writer fails or takes no bytes. Then the
/// status is 1, and part of the text can have been written.
///
/// Reads at most 1,048,577 bytes. `run` blocks until all its threads have ended.
pub fn command<H: Threads + Wait + Sync, R: Read, W: Output>(
    rt: &H,
    alloc: Global,
    words: Vec<String>,
    reader: &mut R,
    writer: &mut W,
) -> u8
    ensures run { IsAnswered (map string_bytes words.items) (R.remaining reader.old) (W.contents writer.old)
        (W.contents writer.new) (W.IsFlushed writer.new) (W.HasFailed writer.new) result }
    ensures whole { result ≢ 1 → WroteWhole (map string_bytes words.items) (R.remaining reader.old)
        (W.contents writer.old) (W.contents writer.new) result }
    ensures unread { action_in (map string_bytes words.items) ≡ None → reader.new ≡ reader.old }
    ensures most { ConsumesAtMost (max_bytes + 1) (R.remaining reader.old) (R.remaining reader.new) }
{
    let request = parse_args(alloc, words.as_slice());
    let answer = respond(rt, alloc, request, reader);
    write_answer(writer, &answer)
}
