// Reads operations from the elements of a step.
ghost use Rattle.std.specs.Prelude.{◌≡◌, ℕ, option_map, map};
ghost use Rattle.serde_json.specs.View.{view};
ghost use Rattle.txc_cmd_script.specs.Operations.{number_in, source_in, on_chan, by_reader, of_body, put_back_of};
ghost use Rattle.txc_cmd_script.specs.Operations.{op_of};

use crate::step_name::StepName;
use crate::tree::says;
use serde_json::Value;
use txc_base::{Op, Source};

/// Reads the number of a channel or a reader.
fn number(tree: &Value) -> Option<u16>
    ensures { result ≡ number_in (view tree.now) }
{
    u16::try_from(tree.as_u64()?).ok()
}

/// Reads a body: a whole number, or `last`.
fn source(tree: &Value) -> Option<Source>
    ensures { result ≡ source_in (view tree.now) }
{
    match tree.as_u64() {
        Some(body) => Some(Source::Lit(body)),
        None if says(tree, "last") => Some(Source::Last),
        None => None,
    }
}

/// Reads a channel, with no further element.
fn read_chan(operands: &[Value]) -> Option<u16>
    ensures { (op : ℕ → Op) → option_map op result ≡ on_chan op (map view operands.now) }
{
    match operands {
        [chan] => number(chan),
        _ => None,
    }
}

/// Reads a channel and a reader. The reader is 0 if it is left out.
fn read_reader(operands: &[Value]) -> Option<(u16, u16)>
    ensures { (op : ℕ → ℕ → Op) → option_map (λ named. op named.0 named.1)
        result ≡ by_reader op (map view operands.now) }
{
    match operands {
        [chan] => Some((number(chan)?, 0)),
        [chan, reader] => Some((number(chan)?, number(reader)?)),
        _ => None,
    }
}

/// Reads a channel and a body.
fn read_body(operands: &[Value]) -> Option<(u16, Source)>
    ensures { (op : ℕ → Source → Op)
        → option_map (λ named. op named.0 named.1) result ≡ of_body op (map view operands.now) }
{
    match operands {
        [chan, body] => Some((number(chan)?, source(body)?)),
        _ => None,
    }
}

/// Reads a put-back: a channel, a reader and a body. The reader is 0 if it is left out.
fn read_put_back(operands: &[Value]) -> Option<Op>
    ensures { result ≡ put_back_of (map view operands.now) }
{
    let (chan, reader, body) = match operands {
        [chan, body] => (number(chan)?, 0, source(body)?),
        [chan, reader, body] => (number(chan)?, number(reader)?, source(body)?),
        _ => return None,
    };
    Some(Op::PutBack { chan, reader, body })
}

/// Reads an operation from the name of its step and the elements after it. Returns `None` for `or` and `retry`, which
/// are not
/// operations.
pub(crate) fn read_op(step_name: StepName, operands: &[Value]) -> Option<Op>
    ensures { result ≡ op_of step_name (map view operands.now) }
{
    match step_name {
        StepName::Write => read_body(operands).map(|(chan, body)| Op::Write { chan, body }),
        StepName::TryWrite => read_body(operands).map(|(chan, body)| Op::TryWrite { chan, body }),
        StepName::Read => read_reader(operands).map(|(chan, reader)| Op::Read { chan, reader }),
        StepName::TryRead => read_reader(operands).map(|(chan, reader)| Op::TryRead {
            chan,
            reader,
        }),
        StepName::Peek => read_reader(operands).map(|(chan, reader)| Op::Peek { chan, reader }),
        StepName::TryPeek => read_reader(operands).map(|(chan, reader)| Op::TryPeek {
            chan,
            reader,
        }),
        StepName::PutBack => read_put_back(operands),
        StepName::Close => read_chan(operands).map(|chan| Op::Close { chan }),
        StepName::IsClosed => read_chan(operands).map(|chan| Op::IsClosed { chan }),
        StepName::IsEmpty => read_reader(operands).map(|(chan, reader)| Op::IsEmpty {
            chan,
            reader,
        }),
        StepName::IsFull => read_chan(operands).map(|chan| Op::IsFull { chan }),
        StepName::Dup => read_chan(operands).map(|chan| Op::Dup { chan }),
        StepName::Clone => read_reader(operands).map(|(chan, reader)| Op::CloneReader {
            chan,
            reader,
        }),
        StepName::Flush => read_reader(operands).map(|(chan, reader)| Op::Flush { chan, reader }),
        StepName::Length => read_chan(operands).map(|chan| Op::Length { chan }),
        StepName::Or | StepName::Retry => None,
    }
}
