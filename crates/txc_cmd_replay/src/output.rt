// The report of a script.
ghost use Rattle.std.specs.Prelude.{◌≡◌, IfOk, IfErr, string_bytes};
ghost use Rattle.txc_cmd_report.specs.Text.{text_of};
ghost use Rattle.txc_cmd_replay.specs.Rounds.{rounds};

use crate::rounds::replay;
use std::alloc::Global;
use txc_base::Stop;
use txc_chan::Append;
use txc_cmd_report::report_text;
use txc_cmd_script::Script;

/// Replays a script in one thread like `replay`, and returns its report: the replies of its transactions, and what is
/// left in the channels. Fails only with `NoMemory`, if allocation fails.
pub fn replay_text<R: Append>(rt: &R, alloc: Global, script: &Script) -> Result<String, Stop>
    ensures ok { IfOk result (λ text. string_bytes text ≡ text_of (rounds script.now)) }
    ensures err { IfErr result (λ stop. stop ≡ Stop.NoMemory) }
{
    let outcome = replay(rt, alloc, script)?;
    report_text(alloc, &outcome)
}
