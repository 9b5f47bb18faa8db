// Runs one thread per seat.
ghost use Rattle.std.specs.Prelude.{◌≡◌, ◌<◌, ◌≤◌, ℕ, [], All, IfErr, IfOk, Some, length, map, slice_get};
ghost use Rattle.std.specs.Prelude.{slice_index_or, vec_capacity, vec_len};
ghost use Rattle.txc_txn_check.specs.Steps.{Fits};
ghost use Rattle.txc_table_seat.specs.Seated.{no_commits};
ghost use Rattle.txc_base_threads.specs.Postcondition.{AllRelated};
ghost use Rattle.txc_cmd_threads.specs.Pool.{AreAllResults, AreUnzipped, HasServed};
ghost use Rattle.txc_cmd_threads.specs.Ran.{IsNotTorn};

use crate::gate::Gate;
use crate::job::{Job, JobResult, show_shared_plans};
use crate::run_fault::RunFault;
use std::alloc::Global;
use std::sync::Wait;
use std::thread::Threads;
use txc_base_threads::{StartError, Task, run_all};
use txc_cmd_report::SeatEnd;
use txc_table::{DepartedSeat, Seat, Table};
use txc_txn_check::Checked;

/// The data that all threads share.
#[derive(Drop)]
pub(crate) struct Pool<'a, R> {
    pub(crate) rt: &'a R,
    pub(crate) alloc: Global,
    pub(crate) table: &'a Table,
    /// The transactions of each seat, indexed by seat number.
    pub(crate) plans: &'a [Vec<Checked>],
}

/// The seats that have left, by their numbers, and how their transactions ended.
#[derive(Drop)]
pub(crate) struct Results<L> {
    pub(crate) left: Vec<L>,
    pub(crate) ends: Vec<SeatEnd>,
}

/// Makes each of these seats leave the table.
fn leave_all<R: Wait>(rt: &R, table: &Table, seats: Vec<Seat>)
    requires of { (k : ℕ) (s : _) → k < vec_len seats → (slice_index_or seats.items k s).lines ≡ table.now.lines }
{
    let mut seats = seats;
    for _ in 0..seats.len() {
        drop(table.leave(rt, seats.remove(0)));
    }
    seats.destroy_empty();
}

/// Adds a job for each seat, in the order of their numbers, to `jobs`, which must be empty and have capacity for them.
fn make_jobs<'a, R: Wait, G: Drop>(
    pool: &Pool<'a, R>,
    seats: Vec<Seat>,
    gates: Vec<G>,
    jobs: &mut Vec<Job<'a, R, G>>,
)
    requires seats { vec_len seats ≡ length pool.now.plans.now }
    requires of { (k : ℕ) (s : _) → k < vec_len seats
        → (slice_index_or seats.items k s).lines ≡ pool.now.table.now.lines }
    requires gates { vec_len gates ≡ length pool.now.plans.now }
    requires none { jobs.old.items ≡ [] }
    requires room { length pool.now.plans.now ≤ vec_capacity jobs.old }
    ensures len { vec_len jobs.new ≡ length pool.now.plans.now }
    ensures each { (k : ℕ) (j : _) (s : _) → k < vec_len jobs.new
        → ((slice_index_or jobs.new.items k j).table.now ≡ pool.now.table.now)
        × ((slice_index_or jobs.new.items k j).plans.now
        ≡ slice_index_or (map (λ seat. seat.items) pool.now.plans.now) k [])
        × ((slice_index_or jobs.new.items k j).seat ≡ Some (slice_index_or seats.items k s)) }
{
    let (mut seats, mut gates) = (seats, gates);
    for number in 0..pool.plans.len() {
        jobs.push_reserved(Job {
            rt: pool.rt,
            alloc: pool.alloc,
            table: pool.table,
            seat: Some(seats.remove(0)),
            plans: pool.plans[number].as_slice(),
            gate: gates.remove(0),
        });
    }
    seats.destroy_empty();
}

/// Unzips the results of the threads into a list of seats and a list of ends. Fails with `NoMemory` if allocation
/// fails.
fn unzip_results<L: Drop>(alloc: Global, served: Vec<JobResult<L>>) -> Result<Results<L>, RunFault>
    ensures early { IfErr result IsNotTorn }
    ensures unzipped { IfOk result (AreUnzipped served.items) }
{
    let mut results = Results {
        left: Vec::new(alloc),
        ends: Vec::new(alloc),
    };
    for one in served {
        let JobResult { left, end } = one;
        results.left.push(left)?;
        results.ends.push(end)?;
    }
    Ok(results)
}

/// Performs each job in a thread of its own, and returns the seats and how they ended, in the order of the jobs.
///
/// Fails only with `NoThread`, if a thread cannot be started, or `NoMemory`, if allocation fails. Blocks until all
/// threads have ended, also on failure.
fn run_jobs<
    'a,
    R: Threads + Wait + Sync + 'a,
    L: Send + Drop + 'a,
    J: Task<JobResult<L>> + Send + Drop + 'a,
>(rt: &'a R, alloc: Global, jobs: Vec<J>) -> Result<Results<L>, RunFault>
    requires can { (k : ℕ) (j : _) → k < vec_len jobs → J.Can (slice_index_or jobs.items k j) }
    ensures early { IfErr result IsNotTorn }
    ensures back { IfOk result (λ results. (served : _) × AllRelated J.Does jobs.items served
        × AreUnzipped served results) }
{
    match run_all(rt, alloc, jobs) {
        Ok(served) => unzip_results(alloc, served),
        Err(StartError::NoThread) => Err(RunFault::NoThread),
        Err(StartError::NoMemory) => Err(RunFault::NoMemory),
    }
}

/// Runs the transactions of each seat in a thread of its own, after the seat's gate is called. Returns the seats and
/// how they ended.
///
/// Fails only with `NoThread`, if a thread cannot be started, or `NoMemory`, if allocation fails. Blocks until all
/// threads have ended. All seats have then left, also on failure.
pub(crate) fn work_all<'a, R: Threads + Wait + Sync + 'a, G: Gate + Send + Drop + 'a>(
    pool: Pool<'a, R>,
    seats: Vec<Seat>,
    gates: Vec<G>,
) -> Result<Results<DepartedSeat>, RunFault>
    requires fits { All (All (λ plan. Fits (slice_get pool.table.now.kinds) plan.steps))
        (map (λ seat. seat.items) pool.plans.now) }
    requires seats { vec_len seats ≡ length pool.plans.now }
    requires of { (k : ℕ) (s : _) → k < vec_len seats
        → (slice_index_or seats.items k s).lines ≡ pool.table.now.lines }
    requires fresh { (k : ℕ) (s : _) → k < vec_len seats → (slice_index_or seats.items k s).commits ≡ no_commits k }
    requires gates { vec_len gates ≡ length pool.plans.now }
    ensures early { IfErr result IsNotTorn }
    ensures back { let plans = map (λ seat. seat.items) pool.entry.plans.now in
        IfOk result (AreAllResults (length pool.entry.plans.now)
        (λ k left end. HasServed pool.entry.table.now (slice_index_or plans k []) (no_commits k) left end)) }
{
    let (rt, alloc) = (pool.rt, pool.alloc);
    let mut jobs: Vec<Job<'a, R, G>> = Vec::new(alloc);
    if jobs.reserve(pool.plans.len()).is_err() {
        leave_all(rt, pool.table, seats);
        return Err(RunFault::NoMemory);
    }
    make_jobs(&pool, seats, gates, &mut jobs);
    show_shared_plans();
    run_jobs(rt, alloc, jobs)
}
