// How a seat's transactions ended.
ghost use Rattle.std.specs.Prelude.{◌≡◌};
ghost use Rattle.std.specs.List.{list_any};
ghost use Rattle.txc_cmd_report.specs.Text.{is_stopped, is_stalled};

use txc_base::{Cause, Stop};

/// How the transactions of a seat ended.
#[derive(Debug, Clone, Copy, PartialEq, Eq)]
pub enum SeatEnd {
    /// Every transaction committed.
    Finished,
    /// The next transaction must be retried, and no seat makes the change that it waits for.
    Stalled(Cause),
    /// The next transaction aborted.
    Stopped(Stop),
}

/// Returns whether a seat was stopped.
pub fn any_stopped(ends: &[SeatEnd]) -> bool
    ensures { result ≡ list_any is_stopped ends.now }
{
    ends.iter().any(|end| matches!(end, SeatEnd::Stopped(_)))
}

/// Returns whether a seat stalled.
pub fn any_stalled(ends: &[SeatEnd]) -> bool
    ensures { result ≡ list_any is_stalled ends.now }
{
    ends.iter().any(|end| matches!(end, SeatEnd::Stalled(_)))
}
