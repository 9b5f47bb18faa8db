// Runs one thread per worker.
ghost use Rattle.std.specs.Prelude.{◌≡◌, ◌≤◌, ◌<◌, ℕ, [], IfOk, IsTrue, Ok, Some, map, slice_index_or, vec_len};
ghost use Rattle.std.specs.Prelude.{vec_capacity};
ghost use Rattle.yalwythen_work.specs.Ran.{IsOfAll};
ghost use Rattle.txc_base_threads.specs.Postcondition.{AllRelated};
ghost use Rattle.txc_table_seat.specs.Seated.{no_commits};

use crate::job::{Job, JobResult};
use crate::plans::Plans;
use crate::recording::Recording;
use crate::role::Role;
use crate::setup::Setup;
use crate::transact_error::TransactError;
use std::alloc::{AllocError, Global};
use std::marker::PhantomData;
use std::sync::Wait;
use std::thread::Threads;
use txc_base_threads::{StartError, Task, run_all};
use txc_table::{DepartedSeat, Seat, Table};

/// The data that all workers share.
#[derive(Drop)]
pub(crate) struct Pool<'a, R, K: Recording> {
    pub(crate) rt: &'a R,
    pub(crate) setup: Setup,
    pub(crate) table: &'a Table<K>,
}

/// The workers and their results, by the workers' numbers.
#[derive(Drop)]
pub(crate) struct Results<L, W> {
    pub(crate) left: Vec<L>,
    pub(crate) workers: Vec<W>,
    pub(crate) ends: Vec<Result<(), TransactError>>,
    pub(crate) plans: Vec<Plans>,
}

impl<L: Drop, W: Drop> Results<L, W> {
    ghost use Rattle.std.specs.Prelude.{◌≡◌, ◌+◌, ◌++◌, ◌∷◌, [], OnOk, vec_len};

    /// Adds the result of one worker. Fails with `NoMemory` if allocation fails; some of the lists may then have grown.
    fn add(&mut self, one: JobResult<L, W>) -> Result<(), StartError>
        ensures left { OnOk result (self.new.left.items ≡ self.old.left.items ++ one.left ∷ []) }
        ensures workers { OnOk result (self.new.workers.items ≡ self.old.workers.items ++ one.worker ∷ []) }
        ensures plans { OnOk result (self.new.plans.items ≡ self.old.plans.items ++ one.plans ∷ []) }
        ensures ends { OnOk result (self.new.ends.items ≡ self.old.ends.items ++ one.end ∷ []) }
        ensures many_left { OnOk result (vec_len self.new.left ≡ vec_len self.old.left + 1) }
        ensures many_workers { OnOk result (vec_len self.new.workers ≡ vec_len self.old.workers + 1) }
        ensures many_ends { OnOk result (vec_len self.new.ends ≡ vec_len self.old.ends + 1) }
        ensures many_plans { OnOk result (vec_len self.new.plans ≡ vec_len self.old.plans + 1) }
    {
        let JobResult {
            left,
            worker,
            end,
            plans,
        } = one;
        self.left.push(left)?;
        self.workers.push(worker)?;
        self.ends.push(end)?;
        self.plans.push(plans)?;
        Ok(())
    }
}

/// Makes each of these seats leave the table.
fn leave_all<R: Wait, K: Recording>(rt: &R, table: &Table<K>, seats: Vec<Seat<K, K::Receipts>>)
    requires of { (k : ℕ) (s : _) → k < vec_len seats → (slice_index_or seats.items k s).lines ≡ table.now.lines }
{
    let mut seats = seats;
    for _ in 0..seats.len() {
        drop(table.leave(rt, seats.remove(0)));
    }
    seats.destroy_empty();
}

/// Pairs each seat with the worker of the same number and adds the pairs to `jobs`, which must be empty and have
/// capacity for them.
fn make_jobs<'a, R: Wait, K: Recording, W: Drop, Q>(
    pool: &Pool<'a, R, K>,
    seats: Vec<Seat<K, K::Receipts>>,
    workers: Vec<W>,
    jobs: &mut Vec<Job<'a, R, K, W, Q>>,
)
    requires workers { vec_len workers ≡ vec_len seats }
    requires of { (k : ℕ) (s : _) → k < vec_len seats
        → (slice_index_or seats.items k s).lines ≡ pool.now.table.now.lines }
    requires none { jobs.old.items ≡ [] }
    requires room { vec_len seats ≤ vec_capacity jobs.old }
    ensures len { vec_len jobs.new ≡ vec_len workers }
    ensures each { (k : ℕ) (j : _) (s : _) (w : _) → k < vec_len jobs.new
        → ((slice_index_or jobs.new.items k j).seat ≡ Some (slice_index_or seats.items k s))
        × ((slice_index_or jobs.new.items k j).worker ≡ Some (slice_index_or workers.items k w))
        × ((slice_index_or jobs.new.items k j).setup ≡ pool.now.setup) }
{
    let (mut seats, mut workers) = (seats, workers);
    for _ in 0..seats.len() {
        jobs.push_reserved(Job {
            role: PhantomData,
            rt: pool.rt,
            setup: pool.setup,
            table: pool.table,
            seat: Some(seats.remove(0)),
            worker: Some(workers.remove(0)),
        });
    }
    seats.destroy_empty();
}

/// Collects the outputs if none is an error. Fails with `NoMemory` if one is, or if allocation fails.
fn collect_outputs<T: Drop>(
    alloc: Global,
    outputs: Vec<Result<T, AllocError>>,
) -> Result<Vec<T>, StartError>
    ensures { IfOk result (λ all. outputs.items ≡ map Ok all.items) }
{
    let mut all = Vec::new(alloc);
    for output in outputs {
        all.push(output?)?;
    }
    Ok(all)
}

/// Performs each job in a thread of its own, and returns the results in the order of the jobs.
///
/// Fails with `NoThread` if a thread cannot be started, and with `NoMemory` if allocation fails, here or in a job.
/// Blocks until all threads have ended, also on failure.
fn perform_all<
    'a,
    R: Threads + Wait + Sync + 'a,
    L: Send + Drop + 'a,
    W: Send + Drop + 'a,
    J: Task<Result<JobResult<L, W>, AllocError>> + Send + Drop + 'a,
>(rt: &'a R, alloc: Global, jobs: Vec<J>) -> Result<Vec<JobResult<L, W>>, StartError>
    requires can { (k : ℕ) (j : _) → k < vec_len jobs → J.Can (slice_index_or jobs.items k j) }
    ensures came { IfOk result (λ all. AllRelated (λ job served. J.Does job (Ok served)) jobs.items all.items) }
{
    let outputs = run_all(rt, alloc, jobs)?;
    collect_outputs(alloc, outputs)
}

/// Unzips the results of the workers into one list per kind of result, by the workers' numbers. Fails with `NoMemory`
/// if allocation fails.
fn unzip_results<L: Drop, W: Drop>(
    alloc: Global,
    served: Vec<JobResult<L, W>>,
) -> Result<Results<L, W>, StartError>
    ensures len { IfOk result (λ results. IsOfAll (vec_len served) results) }
    ensures each { IfOk result (λ results. (k : ℕ) (s : _) (l : _) (w : _) (p : _) (e : _) → k < vec_len served
        → (slice_index_or results.left.items k l ≡ (slice_index_or served.items k s).left)
        × (slice_index_or results.workers.items k w ≡ (slice_index_or served.items k s).worker)
        × (slice_index_or results.plans.items k p ≡ (slice_index_or served.items k s).plans)
        × (slice_index_or results.ends.items k e ≡ (slice_index_or served.items k s).end)) }
{
    let mut results = Results {
        left: Vec::new(alloc),
        workers: Vec::new(alloc),
        ends: Vec::new(alloc),
        plans: Vec::new(alloc),
    };
    for one in served {
        match results.add(one) {
            Ok(()) => {}
            Err(refused) => {
                drop(results);
                return Err(refused);
            }
        }
    }
    Ok(results)
}

/// Runs each worker in a thread of its own, at the seat with its number, and returns their results.
///
/// Fails with `NoThread` if a thread cannot be started, and with `NoMemory` if allocation fails. Blocks until all
/// threads have ended. All seats have then left, also on failure.
pub(crate) fn work_all<
    'a,
    R: Threads + Wait + Sync + 'a,
    K: Recording + Send + Sync + 'a,
    W: Send + Drop + 'a,
    Q: Role<R, K, W> + Send + 'a,
>(
    pool: Pool<'a, R, K>,
    seats: Vec<Seat<K, K::Receipts>>,
    workers: Vec<W>,
) -> Result<Results<DepartedSeat<K, K::Receipts>, W>, StartError>
where
    K::Receipts: Send,
    requires workers { vec_len workers ≡ vec_len seats }
    requires of { (k : ℕ) (s : _) → k < vec_len seats
        → (slice_index_or seats.items k s).lines ≡ pool.table.now.lines }
    requires fresh { (k : ℕ) (s : _) → k < vec_len seats → (slice_index_or seats.items k s).commits ≡ no_commits k }
    ensures len { IfOk result (λ results. IsOfAll (vec_len workers) results) }
    ensures numbered { IfOk result (λ results. (k : ℕ) (l : _) → k < vec_len workers
        → (slice_index_or results.left.items k l).commits.number ≡ k) }
    ensures of { IfOk result (λ results. (k : ℕ) (l : _) → k < vec_len workers
        → (slice_index_or results.left.items k l).lines ≡ pool.entry.table.now.lines) }
    ensures noted { IfOk result (λ results. IsTrue pool.entry.setup.audited → (k : ℕ) (l : _) (p : _)
        → k < vec_len workers → (slice_index_or results.plans.items k p).kept
        ≡ (slice_index_or results.left.items k l).commits.plans) }
    ensures came { IfOk result (λ results. (k : ℕ) (b : _) (a : _) (e : _) → k < vec_len workers
        → Q.Postcondition (slice_index_or workers.items k b) (slice_index_or results.workers.items k a)
        (slice_index_or results.ends.items k e)) }
{
    let mut jobs: Vec<Job<'a, R, K, W, Q>> = Vec::new(pool.setup.alloc);
    match jobs.reserve(seats.len()) {
        Ok(()) => {}
        Err(_refused) => {
            leave_all(pool.rt, pool.table, seats);
            return Err(StartError::NoMemory);
        }
    }
    make_jobs(&pool, seats, workers, &mut jobs);
    let served = perform_all(pool.rt, pool.setup.alloc, jobs)?;
    unzip_results(pool.setup.alloc, served)
}
