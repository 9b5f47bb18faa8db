// The code of one thread.
ghost use Rattle.std.specs.Prelude.{◌≡◌, slice_get, All};
ghost use Rattle.txc_txn_check.specs.Steps.{Fits};
ghost use Rattle.txc_table.specs.Table.{decls_of};
ghost use Rattle.txc_cmd_threads.specs.Serves.{Serves};

use std::alloc::Global;
use std::sync::Wait;
use txc_cmd_report::SeatEnd;
use txc_table::{Ended, Seat, Table};
use txc_txn_check::Checked;

/// Runs these transactions in order, until all have committed or one stalls or aborts. Returns how they ended. Blocks
/// like `Table::transact`. Allocates.
pub(crate) fn serve<R: Wait>(
    rt: &R,
    alloc: Global,
    table: &Table,
    seat: &mut Seat,
    plans: &[Checked],
) -> SeatEnd
    requires of { seat.old.lines ≡ table.now.lines }
    requires fits { All (λ plan. Fits (slice_get table.now.kinds) plan.steps) plans.now }
    ensures serves { Serves (decls_of table.now.lines) plans.now seat.old.commits seat.new.commits result }
    ensures lines { seat.new.lines ≡ seat.old.lines }
{
    for plan in plans {
        match table.transact(rt, alloc, seat, plan) {
            Ok(Ended::Kept(_)) => {}
            Ok(Ended::Stalled(cause)) => return SeatEnd::Stalled(cause),
            Err(stop) => return SeatEnd::Stopped(stop),
        }
    }
    SeatEnd::Finished
}
