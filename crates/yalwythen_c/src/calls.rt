// The calls that take no room.
ghost use Rattle.std.specs.Prelude.{◌≡◌, ◌≢◌, ◌≤◌, ◌↔◌, IsTrue, length, take, Ok};
ghost use Rattle.txc_cmd_script.specs.Reading.{script_in};
ghost use Rattle.txc_cmd_script.specs.Script.{Script as Said};
ghost use Rattle.txc_cmd_report.specs.Text.{text_of};
ghost use Rattle.txc_cmd_replay.specs.Rounds.{rounds};
ghost use Rattle.yalwythen_domain.specs.Codes.{code_in, replayed};

use std::alloc::Global;
use yalwythen_domain::{CheckResult, ReplayResult, check, is_bound, replay};

/// Returns whether a bounded queue may have this bound, which is at most 65,535. Does not allocate.
#[unsafe(no_mangle)]
pub extern "C" fn yalwythen_core_is_bound(bound: u64) -> bool
    ensures { IsTrue result ↔ bound ≤ 65535 }
{
    is_bound(bound)
}

/// Checks a script in JSON. Returns code 0 with the numbers of its channels and seats, or the code of its first fault
/// with zeros; code 12 if an allocation fails. Allocates.
#[unsafe(no_mangle)]
pub extern "C" fn yalwythen_core_check(alloc: Global, script: &[u8]) -> CheckResult
    ensures code { result.code ≢ 12 → result.code ≡ code_in (script_in script.now) }
    ensures counts { (parsed : Said) → script_in script.now ≡ Ok parsed → result.code ≡ 0
        → (result.channels ≡ length parsed.decls) × (result.seats ≡ length parsed.seats) }
    ensures none { result.code ≢ 0 → (result.channels ≡ 0) × (result.seats ≡ 0) }
{
    check(alloc, script)
}

/// Replays a script in JSON in one thread, and writes its report to the front of `out`. Returns code 0 with the
/// report's length, or the code of the script's first fault; code 12 if an allocation fails, 13 if a channel is a
/// broadcast, and 14 with the report's length if the report doesn't fit. Unless the code is 0, `out` is unchanged.
/// Allocates.
#[unsafe(no_mangle)]
pub extern "C" fn yalwythen_core_replay(
    alloc: Global,
    script: &[u8],
    out: &mut [u8],
) -> ReplayResult
    ensures replayed { result.code ≢ 12 → result ≡ replayed (script_in script.now) (length out.old) }
    ensures memory { result.code ≡ 12 → result.length ≡ 0 }
    ensures report { result.code ≡ 0 → (parsed : Said) → script_in script.now ≡ Ok parsed
        → take result.length out.new ≡ text_of (rounds parsed) }
    ensures unchanged { result.code ≢ 0 → out.new ≡ out.old }
{
    replay(alloc, script, out)
}
