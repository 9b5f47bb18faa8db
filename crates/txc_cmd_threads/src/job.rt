// A seat before and after its thread runs its transactions.
ghost use Rattle.std.specs.Prelude.{◌≡◌};
ghost use Rattle.std.specs.Option.{ForSome};
ghost use Rattle.txc_txn_check.specs.contracts.checked.Checked as checked;
ghost use Rattle.txc_cmd_threads.specs.Pool.{CanRun, SeatHasRun};
ghost use denote.Param.Send.{IsSync};

use crate::gate::Gate;
use crate::worker::serve;
use std::alloc::Global;
use std::sync::Wait;
use txc_base_threads::{Task, show_shared};
use txc_cmd_report::SeatEnd;
use txc_table::{DepartedSeat, Seat, Table};
use txc_txn_check::Checked;

/// A seat before its thread runs its transactions. If the job is dropped unperformed, the seat leaves the table.
pub(crate) struct Job<'a, R: Wait, G> {
    pub(crate) rt: &'a R,
    pub(crate) alloc: Global,
    pub(crate) table: &'a Table,
    pub(crate) seat: Option<Seat>,
    pub(crate) plans: &'a [Checked],
    pub(crate) gate: G,
    ghost of: { ForSome seat (λ seat. seat.lines ≡ table.now.lines) },
}

impl<R: Wait, G: Drop> Drop for Job<'_, R, G> {
    fn drop(self) {
        let Job {
            rt,
            alloc: _,
            table,
            seat,
            plans: _,
            gate: _,
        } = self;
        if let Some(seat) = seat {
            drop(table.leave(rt, seat));
        }
    }
}

/// A seat that has left, and how its transactions ended.
#[derive(Drop)]
pub(crate) struct JobResult<L> {
    pub(crate) left: L,
    pub(crate) end: SeatEnd,
}

impl<R: Wait, G: Gate + Drop> Task<JobResult<DepartedSeat>> for Job<'_, R, G> {
    ghost use Rattle.txc_cmd_threads.specs.Pool.{CanRun, SeatHasRun};

    ghost Can = { λ job. CanRun job.table.now job.plans.now job.seat };

    ghost Does = { λ job served. SeatHasRun job.table.now job.plans.now job.seat served.left served.end };

    fn perform(self) -> JobResult<DepartedSeat> {
        run_job(self)
    }
}

/// Shows that threads may share transactions. Does nothing at run time.
pub(crate) fn show_shared_plans()
    ensures { IsSync checked.the_row }
{
    show_shared::<Checked>(&[]);
}

/// Calls the gate, with no lock held, runs the transactions of a job, which must have its seat, and makes the seat
/// leave.
fn run_job<R: Wait, G: Gate + Drop>(job: Job<'_, R, G>) -> JobResult<DepartedSeat>
    requires can { CanRun job.table.now job.plans.now job.seat }
    ensures { SeatHasRun job.entry.table.now job.entry.plans.now job.entry.seat result.left result.end }
{
    let mut job = job;
    job.gate.pass();
    let Some(seat) = job.seat.take() else {
        unreachable!()
    };
    let mut seat = seat;
    let end = serve(job.rt, job.alloc, job.table, &mut seat, job.plans);
    JobResult {
        left: job.table.leave(job.rt, seat),
        end,
    }
}
