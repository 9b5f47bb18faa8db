// A worker before and after its thread runs it.
ghost use Rattle.std.specs.Prelude.{◌≡◌, IfOk, Some};
ghost use Rattle.std.specs.Option.{ForSome};
ghost use Rattle.txc_table_seat.specs.Seated.{no_commits};
ghost use Rattle.yalwythen_work.specs.Left.{IsLeftOf};

use crate::one_shot::OneShot;
use crate::plans::Plans;
use crate::recording::Recording;
use crate::role::Role;
use crate::seat_with_plans::SeatWithPlans;
use crate::session::Session;
use crate::setup::Setup;
use crate::transact_error::TransactError;
use std::alloc::AllocError;
use std::marker::PhantomData;
use std::sync::Wait;
use txc_base_threads::Task;
use txc_table::{DepartedSeat, Seat, Table};

/// A worker and its seat, before its thread runs it. If the job is dropped unperformed, the seat leaves the table.
///
/// `R` is the handle by which the worker blocks, `K` is what the table and its seats record, `W` is the worker, and `Q`
/// is its role: `WorkerRole` or `ServerRole`.
pub(crate) struct Job<'a, R: Wait, K: Recording, W, Q> {
    pub(crate) role: PhantomData<Q>,
    pub(crate) rt: &'a R,
    pub(crate) setup: Setup,
    pub(crate) table: &'a Table<K>,
    /// The seat. `None` once `run_job` has taken it: then no seat leaves when the job is dropped.
    pub(crate) seat: Option<Seat<K, K::Receipts>>,
    /// The worker. `None` once `run_job` has taken it.
    pub(crate) worker: Option<W>,
    ghost of: { ForSome seat (λ seat. seat.lines ≡ table.now.lines) },
}

impl<R: Wait, K: Recording, W: Drop, Q> Drop for Job<'_, R, K, W, Q> {
    fn drop(self) {
        let Job {
            role: _,
            rt,
            setup: _,
            table,
            seat,
            worker: _,
        } = self;
        if let Some(seat) = seat {
            drop(table.leave(rt, seat));
        }
    }
}

/// The result of a job: the seat that left the table, the worker, how the worker ended, and its transactions. `L` is
/// the seat, and `W` is the worker.
#[derive(Drop)]
pub(crate) struct JobResult<L, W> {
    pub(crate) left: L,
    pub(crate) worker: W,
    pub(crate) end: Result<(), TransactError>,
    pub(crate) plans: Plans,
}

impl<R: Wait, K: Recording, W: Drop, Q: Role<R, K, W>> Task<
    Result<JobResult<DepartedSeat<K, K::Receipts>, W>, AllocError>,
> for Job<'_, R, K, W, Q> {
    ghost use Rattle.std.specs.Prelude.{◌≡◌, IfOk, Some};
    ghost use Rattle.txc_table_seat.specs.Seated.{no_commits};
    ghost use Rattle.yalwythen_work.specs.Left.{IsLeftOf};

    ghost Can = { λ job. (seat : _) × (worker : _) × (job.seat ≡ Some seat) × (job.worker ≡ Some worker)
        × (seat.commits ≡ no_commits seat.commits.number) };

    ghost Does = { λ job output. (seat : _) → (worker : _) → job.seat ≡ Some seat → job.worker ≡ Some worker
        → IfOk output (λ served. IsLeftOf job.setup.audited seat served.left served.plans
        × Q.Postcondition worker served.worker served.end) };

    fn perform(self) -> Result<JobResult<DepartedSeat<K, K::Receipts>, W>, AllocError> {
        run_job(self)
    }
}

/// Runs the worker at a session with this seat, and makes the seat leave. If allocation fails, the seat leaves without
/// having run the worker.
fn serve<R: Wait, K: Recording, W: Drop, Q: Role<R, K, W>>(
    rt: &R,
    setup: Setup,
    table: &Table<K>,
    seat: Seat<K, K::Receipts>,
    worker: W,
) -> Result<JobResult<DepartedSeat<K, K::Receipts>, W>, AllocError>
    requires of { seat.lines ≡ table.now.lines }
    requires fresh { seat.commits ≡ no_commits seat.commits.number }
    ensures left { IfOk result (λ served. IsLeftOf setup.audited seat served.left served.plans) }
    ensures came { IfOk result (λ served. Q.Postcondition worker served.worker served.end) }
{
    let mut worker = worker;
    let plans = Plans::new(setup.alloc, setup.audited);
    let both = SeatWithPlans { seat, plans };
    let cell = match OneShot::new(setup.alloc, &both) {
        Ok(cell) => cell,
        Err(refused) => {
            let SeatWithPlans { seat, plans: _ } = both;
            drop(table.leave(rt, seat));
            return Err(refused);
        }
    };
    let mut session = Session::new(setup.alloc, table, both, cell.claim(rt));
    let end = Q::work(&mut worker, rt, &mut session);
    drop(session);
    let SeatWithPlans { seat, plans } = cell.into_inner(rt);
    Ok(JobResult {
        left: table.leave(rt, seat),
        worker,
        end,
        plans,
    })
}

/// Runs the worker of a job, which must have its seat and its worker. The worker's seat then leaves.
fn run_job<R: Wait, K: Recording, W: Drop, Q: Role<R, K, W>>(
    job: Job<'_, R, K, W, Q>,
) -> Result<JobResult<DepartedSeat<K, K::Receipts>, W>, AllocError>
    requires { (seat : _) × (worker : _) × (job.seat ≡ Some seat) × (job.worker ≡ Some worker)
        × (seat.commits ≡ no_commits seat.commits.number) }
    ensures { (seat : _) → (worker : _) → job.entry.seat ≡ Some seat → job.entry.worker ≡ Some worker
        → IfOk result (λ served. IsLeftOf job.entry.setup.audited seat served.left served.plans
        × Q.Postcondition worker served.worker served.end) }
{
    let mut job = job;
    let Some(worker) = job.worker.take() else {
        unreachable!()
    };
    let Some(seat) = job.seat.take() else {
        unreachable!()
    };
    serve::<R, K, W, Q>(job.rt, job.setup, job.table, seat, worker)
}
