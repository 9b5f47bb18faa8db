// The last tries of seats that stalled.
ghost use Rattle.std.specs.Prelude.{◌≡◌, ◌<◌, All, IfSome, None, length, map, slice_get, slice_index_or};
ghost use Rattle.std.specs.Prelude.{vec_len};
ghost use Rattle.txc_base.specs.declared.cause.Cause.{Cause as Causes};
ghost use Rattle.txc_txn_check.specs.Steps.{Fits};
ghost use Rattle.txc_table_seat.specs.Seated.{no_commits};
ghost use Rattle.txc_table.specs.IdleTableView.{OthersStay};
ghost use Rattle.txc_table.specs.Seat.{DepartedSeatView};
ghost use Rattle.txc_table.specs.Table.{decls_of};
ghost use Rattle.txc_txn.specs.Plain.{chan_in};
ghost use Rattle.txc_cmd_threads.specs.Pool.{HaveRun, HaveServed};
ghost use Rattle.txc_cmd_threads.specs.Serves.{Serves};
ghost use Rattle.txc_cmd_threads.specs.Stuck.{AreStuck, IsStalled, IsStuck};

use std::alloc::Global;
use std::sync::Wait;
use txc_base::Cause;
use txc_cmd_report::SeatEnd;
use txc_table::{IdleTable, Tried};
use txc_txn_check::Checked;

/// Returns the cause for which the next transaction of this stalled seat must be retried on the current channels.
/// Returns `None` if it need not be retried, or if allocation fails. `plans` must be the seat's transactions.
/// Allocates.
fn retry_cause<R: Wait>(
    rt: &R,
    alloc: Global,
    idle: &mut IdleTable,
    at: usize,
    plans: &[Checked],
) -> Option<Cause>
    requires there { at < length idle.old.left }
    requires fits { All (λ plan. Fits (slice_get idle.old.table.kinds) plan.steps) plans.now }
    requires stalled { (cause : Causes) × ((d : DepartedSeatView) → Serves (decls_of idle.old.table.lines) plans.now
        (no_commits at) (slice_index_or idle.old.left at d).commits (SeatEnd.Stalled cause)) }
    ensures serves { IfSome result (λ cause. (d : DepartedSeatView) → Serves (decls_of idle.old.table.lines) plans.now
        (no_commits at) (slice_index_or idle.old.left at d).commits (SeatEnd.Stalled cause)) }
    ensures stuck { IfSome result (λ cause. (d : DepartedSeatView) → IsStuck idle.new.helds plans.now
        (slice_index_or idle.old.left at d).commits (SeatEnd.Stalled cause)) }
    ensures same { IfSome result (λ _. chan_in idle.new.helds ≡ chan_in idle.old.helds) }
    ensures table { idle.new.table ≡ idle.old.table }
    ensures left { idle.new.left ≡ idle.old.left }
{
    let next = idle.count(at);
    match idle.cause_to_retry(rt, alloc, at, &plans[next]) {
        Ok(Some(cause)) => Some(cause),
        Ok(None) | Err(_) => None,
    }
}

/// Returns the first stalled seat whose next transaction need not be retried on the current channels, if there is one.
/// Updates the ends of the seats before it with the causes for which their transactions must be retried. If allocation
/// fails for a seat, it returns that seat. Allocates.
fn find_ready<R: Wait>(
    rt: &R,
    alloc: Global,
    idle: &mut IdleTable,
    plans: &[Vec<Checked>],
    ends: &mut Vec<SeatEnd>,
) -> Option<usize>
    requires left { length idle.old.left ≡ length plans.now }
    requires ended { vec_len ends.old ≡ length plans.now }
    requires served { HaveRun idle.old.table (map (λ seat. seat.items) plans.now) idle.old.left ends.old.items }
    ensures same { (idle.new.table ≡ idle.old.table) × (idle.new.left ≡ idle.old.left) }
    ensures ended { vec_len ends.new ≡ length plans.now }
    ensures back { HaveServed (decls_of idle.old.table.lines)
        (map (λ seat. seat.items) plans.now) idle.old.left ends.new.items }
    ensures ready { IfSome result (λ at. (at < length plans.now)
        × IsStalled (slice_index_or ends.new.items at SeatEnd.Finished)) }
    ensures stuck { result ≡ None → AreStuck (length plans.now) idle.new.helds
        (map (λ seat. seat.items) plans.now) idle.old.left ends.new.items }
{
    for at in 0..plans.len() {
        let end = ends[at];
        let SeatEnd::Stalled(_) = end else {
            continue;
        };
        match retry_cause(rt, alloc, idle, at, plans[at].as_slice()) {
            Some(cause) => ends[at] = SeatEnd::Stalled(cause),
            None => return Some(at),
        }
    }
    None
}

/// Runs the next transactions of this stalled seat in order, until all have committed or one does not commit. Returns
/// the table and how the seat's transactions ended. Allocates.
fn resume<R: Wait>(
    rt: &R,
    alloc: Global,
    idle: IdleTable,
    at: usize,
    plans: &[Checked],
) -> (IdleTable, SeatEnd)
    requires there { at < length idle.left }
    requires fits { All (λ plan. Fits (slice_get idle.table.kinds) plan.steps) plans.now }
    requires stalled { (cause : Causes)
        × ((d : DepartedSeatView) → Serves (decls_of idle.table.lines) plans.now (no_commits at)
        (slice_index_or idle.left at d).commits (SeatEnd.Stalled cause)) }
    ensures serves { (d : DepartedSeatView) → Serves (decls_of idle.table.lines) plans.now (no_commits at)
        (slice_index_or result.0.left at d).commits result.1 }
    ensures others { OthersStay at idle.left result.0.left }
    ensures table { result.0.table ≡ idle.table }
{
    let mut idle = idle;
    let first = idle.count(at);
    for next in first..plans.len() {
        let (after, tried) = idle.attempt(rt, alloc, at, &plans[next]);
        idle = after;
        match tried {
            Ok(Tried::Kept(_)) => {}
            Ok(Tried::Retry(cause)) => return (idle, SeatEnd::Stalled(cause)),
            Err(stop) => return (idle, SeatEnd::Stopped(stop)),
        }
    }
    (idle, SeatEnd::Finished)
}

/// A table that all its seats have left, and how each seat's transactions ended.
#[derive(Drop)]
pub(crate) struct Retried {
    pub(crate) idle: IdleTable,
    pub(crate) ends: Vec<SeatEnd>,
}

/// Tries the next transaction of each stalled seat again, on the channels as all seats left them. If a transaction
/// commits or aborts, its seat continues in this thread, and the stalled seats try again. At the end the next
/// transaction of each seat that is still stalled must be retried on the channels of the table. Allocates.
pub(crate) fn retry_stalled<R: Wait>(
    rt: &R,
    alloc: Global,
    plans: &[Vec<Checked>],
    worked: Retried,
) -> Retried
    requires left { length worked.idle.left ≡ length plans.now }
    requires ended { vec_len worked.ends ≡ length plans.now }
    requires served { HaveRun worked.idle.table (map (λ seat. seat.items) plans.now) worked.idle.left
        worked.ends.items }
    ensures table { result.idle.table ≡ worked.idle.table }
    ensures left { length result.idle.left ≡ length plans.now }
    ensures ended { vec_len result.ends ≡ length plans.now }
    ensures back { HaveServed (decls_of worked.idle.table.lines) (map (λ seat. seat.items) plans.now) result.idle.left
        result.ends.items }
    ensures stuck { AreStuck (length plans.now) result.idle.helds (map (λ seat. seat.items) plans.now)
        result.idle.left result.ends.items }
{
    let Retried { mut idle, mut ends } = worked;
    for _ in rt.forever() {
        let Some(at) = find_ready(rt, alloc, &mut idle, plans, &mut ends) else {
            return Retried { idle, ends };
        };
        let (after, end) = resume(rt, alloc, idle, at, plans[at].as_slice());
        idle = after;
        ends[at] = end;
    }
    unreachable!()
}
