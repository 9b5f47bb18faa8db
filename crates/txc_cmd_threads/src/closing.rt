// The end of a table, after all seats of a script have left.
ghost use Rattle.std.specs.Prelude.{◌≡◌, ◌≢◌, false, All, IfErr, IfOk, length, map, slice_get, vec_len};
ghost use Rattle.txc_base.specs.declared.stop.Stop.TheVariants.{NoMemory};
ghost use Rattle.txc_txn_check.specs.Steps.{Fits};
ghost use Rattle.txc_cmd_report.specs.declared.seat_end.SeatEnd.TheVariants.{Stopped};
ghost use Rattle.txc_table.specs.Refused.{AreAllSeats};
ghost use Rattle.txc_table.specs.Table.{decls_of};
ghost use Rattle.txc_cmd_threads.specs.Closed.{IsClosed};
ghost use Rattle.txc_cmd_threads.specs.Pool.{HaveServed};
ghost use Rattle.txc_cmd_threads.specs.Ran.{IsNotTorn};

use crate::final_tries::{Retried, retry_stalled};
use crate::pool::Results;
use crate::run_fault::RunFault;
use std::alloc::Global;
use std::sync::Wait;
use txc_base::{List, Stop};
use txc_cmd_report::{Outcome, SeatEnd};
use txc_table::{DepartedSeat, Table};
use txc_txn_check::Checked;

/// Returns whether a transaction of a seat was stopped by a failed allocation.
fn any_without_memory(ends: &[SeatEnd]) -> bool
    ensures { result ≡ false → All (λ end. end ≢ Stopped NoMemory) ends.now }
{
    for end in ends {
        if *end == SeatEnd::Stopped(Stop::NoMemory) {
            return true;
        }
    }
    false
}

/// Finishes a table that all its seats have left, after the stalled seats have tried again, and returns the outcome.
/// Fails with `NoMemory` if allocation fails, or failed in a seat's transaction.
pub(crate) fn close<R: Wait>(
    rt: &R,
    alloc: Global,
    table: Table,
    plans: &[Vec<Checked>],
    results: Results<DepartedSeat>,
) -> Result<Outcome, RunFault>
    requires back { AreAllSeats table.lines table.seats results.left.items }
    requires left { vec_len results.left ≡ length plans.now }
    requires ended { vec_len results.ends ≡ length plans.now }
    requires fits { All (All (λ plan. Fits (slice_get table.kinds) plan.steps)) (map (λ seat. seat.items) plans.now) }
    requires served { HaveServed (decls_of table.lines)
        (map (λ seat. seat.items) plans.now) results.left.items results.ends.items }
    ensures ok { IfOk result (IsClosed table (map (λ seat. seat.items) plans.now)) }
    ensures err { IfErr result IsNotTorn }
{
    let Results { left, ends } = results;
    let Ok(idle) = table.into_idle(rt, alloc, left) else {
        return Err(RunFault::NoMemory);
    };
    let Retried { idle, ends } = retry_stalled(rt, alloc, plans, Retried { idle, ends });
    if any_without_memory(ends.as_slice()) {
        drop(idle);
        return Err(RunFault::NoMemory);
    }
    match idle.finish(rt, alloc) {
        Ok(report) => Ok(Outcome {
            report,
            ends: List::from_vec(ends),
        }),
        Err(idle) => {
            drop(idle);
            Err(RunFault::NoMemory)
        }
    }
}
