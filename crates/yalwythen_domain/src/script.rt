// A script, checked or replayed from the caller's bytes.
ghost use Rattle.std.specs.Prelude.{◌≡◌, ◌≢◌, length, take, Ok};
ghost use Rattle.txc_cmd_script.specs.Reading.{script_in};
ghost use Rattle.txc_cmd_script.specs.Script.{Script as Said};
ghost use Rattle.txc_cmd_report.specs.Text.{text_of};
ghost use Rattle.txc_cmd_replay.specs.Rounds.{rounds};
ghost use Rattle.yalwythen_domain.specs.Codes.{code_in, fitted, replayed};
ghost use Rattle.yalwythen_domain.specs.Opening.{has_broadcast};

use std::alloc::Global;
use txc_chan::{Decl, NonBlocking};
use txc_cmd_replay::replay_text;
use txc_cmd_script::read_script;

/// The result of a check: the code of the script's first fault, or code 0 with the numbers of its channels and seats.
#[repr(C)]
#[derive(Clone, Copy)]
pub struct CheckResult {
    pub code: u64,
    pub channels: u64,
    pub seats: u64,
}

/// The result of a replay: code 0 with the length of the report in the caller's bytes, or another code. The faults of a
/// script have the codes that `check` returns. Code 12 means that an allocation failed. Code 13 means that the script
/// has a broadcast channel, which only a caller that can block can replay. Code 14 means that the report of this length
/// does not fit.
#[repr(C)]
#[derive(Clone, Copy)]
pub struct ReplayResult {
    pub code: u64,
    pub length: u64,
}

const NO_MEMORY: u64 = 12;

const BROADCAST: u64 = 13;

const TOO_SHORT: u64 = 14;

/// Checks a script in JSON. Returns code 0 with the numbers of its channels and seats, or the code of its first fault
/// with zeros; code 12 if an allocation fails.
pub fn check(alloc: Global, script: &[u8]) -> CheckResult
    ensures code { result.code ≢ 12 → result.code ≡ code_in (script_in script.now) }
    ensures counts { (parsed : Said) → script_in script.now ≡ Ok parsed → result.code ≡ 0
        → (result.channels ≡ length parsed.decls) × (result.seats ≡ length parsed.seats) }
    ensures none { result.code ≢ 0 → (result.channels ≡ 0) × (result.seats ≡ 0) }
{
    match read_script(alloc, script) {
        Ok(script) => CheckResult {
            code: 0,
            channels: script.decls().len() as u64,
            seats: script.seats().len() as u64,
        },
        Err(fault) => CheckResult {
            code: u64::from(fault.code()),
            channels: 0,
            seats: 0,
        },
    }
}

/// Returns a code, with length 0.
fn refused(code: u64) -> ReplayResult
    ensures { result ≡ record { code = code; length = 0 } }
{
    ReplayResult { code, length: 0 }
}

/// Writes a text to the front of the caller's bytes, if it fits. Returns its length, with code 0, or with code 14 if it
/// does not fit; the bytes are then unchanged.
fn copy_text(text: &[u8], out: &mut [u8]) -> ReplayResult
    ensures fitted { result ≡ fitted text.now (length out.old) }
    ensures text { result.code ≡ 0 → take result.length out.new ≡ text.now }
    ensures unchanged { result.code ≢ 0 → out.new ≡ out.old }
{
    let length = text.len();
    if length > out.len() {
        return ReplayResult {
            code: TOO_SHORT,
            length: length as u64,
        };
    }
    out[..length].copy_from_slice(text);
    ReplayResult {
        code: 0,
        length: length as u64,
    }
}

/// Returns whether a broadcast channel is declared.
fn has_broadcast(decls: &[Decl]) -> bool
    ensures { result ≡ has_broadcast decls.now }
{
    decls.iter().any(|decl| decl.kind.is_broadcast())
}

/// Replays a script in JSON in one thread, and writes its report to the front of `out`. Returns code 0 with the
/// report's length, or the code of the script's first fault; code 12 if an allocation fails, 13 if a channel is a
/// broadcast, and 14 with the report's length if the report doesn't fit. Unless the code is 0, `out` is unchanged.
pub fn replay(alloc: Global, script: &[u8], out: &mut [u8]) -> ReplayResult
    ensures replayed { result.code ≢ 12 → result ≡ replayed (script_in script.now) (length out.old) }
    ensures memory { result.code ≡ 12 → result.length ≡ 0 }
    ensures report { result.code ≡ 0 → (parsed : Said) → script_in script.now ≡ Ok parsed
        → take result.length out.new ≡ text_of (rounds parsed) }
    ensures unchanged { result.code ≢ 0 → out.new ≡ out.old }
{
    let script = match read_script(alloc, script) {
        Ok(script) => script,
        Err(fault) => return refused(u64::from(fault.code())),
    };
    if has_broadcast(script.decls()) {
        return refused(BROADCAST);
    }
    match replay_text(&NonBlocking, alloc, &script) {
        Ok(text) => copy_text(text.as_bytes(), out),
        Err(_) => refused(NO_MEMORY),
    }
}
