// A text to be written, and the lines of faults.
ghost use Rattle.std.specs.Prelude.{◌≡◌, IfOk};
ghost use Rattle.txc_cmd_report.specs.Line.{bytes_of, fault_text};

use std::alloc::{AllocError, Global};
use txc_cmd_script::ScriptFault;

/// A text to be written.
#[derive(Debug, Drop)]
pub enum Text {
    /// A constant text, which needs no allocation.
    Fixed(&'static str),
    /// A text that was allocated.
    Made(String),
}

impl Text {
    /// Returns the bytes of the text.
    pub fn bytes(&self) -> &[u8]
        ensures { result.now ≡ bytes_of self.now }
    {
        match self {
            Text::Fixed(words) => words.as_bytes(),
            Text::Made(text) => text.as_bytes(),
        }
    }
}

/// Returns the line of a fault: `fault: `, the text of the fault and a line feed. Fails if allocation fails. Allocates
/// only if the text names a channel or a transaction.
pub fn fault_line(alloc: Global, fault: ScriptFault) -> Result<Text, AllocError>
    ensures { IfOk result (λ text. bytes_of text ≡ fault_text fault) }
{
    // These lines are constants, so that they can be written after an allocation failed.
    let line = match fault {
        ScriptFault::ReadFailed => "fault: read failed\n",
        ScriptFault::TooLarge => "fault: script too large\n",
        ScriptFault::NotJson => "fault: not JSON\n",
        ScriptFault::Shape => "fault: shape\n",
        ScriptFault::Version => "fault: version\n",
        ScriptFault::TooManyChannels => "fault: too many channels\n",
        ScriptFault::BadSeatCount => "fault: bad seat count\n",
        ScriptFault::BoundTooLarge { .. }
        | ScriptFault::TooManyReaders { .. }
        | ScriptFault::UnknownOp { .. }
        | ScriptFault::Txn { .. } => {
            return Ok(Text::Made(format!(in alloc; "fault: {fault}\n")?));
        }
        ScriptFault::NoMemory => "fault: no memory\n",
    };
    Ok(Text::Fixed(line))
}
