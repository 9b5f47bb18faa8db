// Reads up to a limit from any reader, and writes a text to any writer.
ghost use Rattle.std.specs.Prelude.{◌≡◌, ◌≢◌, ◌<◌, ◌≤◌, ◌+◌, ◌++◌, ℕ, false, length, take, IfOk, IfErr, IfSome, IsTrue};
ghost use Rattle.std.specs.Io.KnownBytes.{Consumes, Appends, IsAtEnd};
ghost use Rattle.txc_cmd_io.specs.Bytes.{ConsumesAtMost};
ghost use Rattle.txc_cmd_script.specs.Reading.{max_bytes};

use crate::output::Output;
use std::alloc::Global;
use std::io::Read;
use txc_cmd_script::{MAX_BYTES, ScriptFault};

/// The maximum number of bytes of one read.
const CHUNK: usize = 4096;

/// Reads some bytes and appends them to `bytes`: at most `room`. Returns the number of bytes, which is 0 only at the
/// end. Fails with `ReadFailed` if the reader fails, and with `NoMemory` if allocation fails.
fn read_some<R: Read>(
    reader: &mut R,
    bytes: &mut Vec<u8>,
    room: usize,
) -> Result<usize, ScriptFault>
    requires { 0 < room }
    ensures bytes { IfOk result (λ n. (more : _) × (bytes.new.items ≡ bytes.old.items ++ more) × (length more ≡ n)
        × (n ≤ room)
        × Consumes (R.remaining reader.old) (R.remaining reader.new) more
        × (n ≡ 0 → IsAtEnd (R.remaining reader.new))) }
    ensures fault { IfErr result (λ e. e ≢ ScriptFault.NoMemory → e ≡ ScriptFault.ReadFailed) }
    ensures most { ConsumesAtMost room (R.remaining reader.old) (R.remaining reader.new) }
{
    let mut chunk = [0u8; CHUNK];
    let most = room.min(CHUNK);
    let part = &mut chunk[..most];
    let count = reader.read(part).map_err(|_| ScriptFault::ReadFailed)?;
    bytes.extend_from_slice(&part[..count])?;
    Ok(count)
}

/// Reads a reader to its end, and returns its bytes. Fails with `TooLarge` as soon as the reader has returned more
/// bytes than a script can have. Fails with `ReadFailed` at any error of the reader, even an interrupted read, and with
/// `NoMemory` if allocation fails. Reads at most 1,048,577 bytes.
pub fn read_limited<R: Read>(alloc: Global, reader: &mut R) -> Result<Vec<u8>, ScriptFault>
    ensures ok { IfOk result (λ v. (length v.items ≤ max_bytes)
        × IfSome (R.remaining reader.old) (λ xs. v.items ≡ xs)) }
    ensures too_large { IfErr result (λ e. e ≡ ScriptFault.TooLarge
        → IfSome (R.remaining reader.old) (λ xs. max_bytes < length xs)) }
    ensures only { IfErr result (λ e. e ≢ ScriptFault.NoMemory → e ≢ ScriptFault.ReadFailed
        → e ≡ ScriptFault.TooLarge) }
    ensures most { ConsumesAtMost (max_bytes + 1) (R.remaining reader.old) (R.remaining reader.new) }
{
    let mut bytes = Vec::new(alloc);
    while bytes.len() <= MAX_BYTES {
        let room = MAX_BYTES + 1 - bytes.len();
        if read_some(reader, &mut bytes, room)? == 0 {
            return Ok(bytes);
        }
    }
    Err(ScriptFault::TooLarge)
}

/// Writes a text and then flushes the writer. Returns `true` if all of the text was written and the flush succeeded.
/// Returns `false` only if a write failed, a write took no bytes or the flush failed; part of the text can then have
/// been written.
pub fn write_text<W: Output>(writer: &mut W, text: &[u8]) -> bool
    ensures all { IsTrue result → Appends (W.contents writer.old) (W.contents writer.new) text.now }
    ensures flushed { IsTrue result → W.IsFlushed writer.new }
    ensures part { (n : ℕ) × Appends (W.contents writer.old) (W.contents writer.new) (take n text.now) }
    ensures failed { result ≡ false → W.HasFailed writer.new }
{
    let mut at = 0;
    while at < text.len() {
        match writer.put(&text[at..]) {
            0 => return false,
            count => at += count,
        }
    }
    writer.finish()
}
