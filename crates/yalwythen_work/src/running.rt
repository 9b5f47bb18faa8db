// A run of workers, from building the table to the report.
ghost use Rattle.std.specs.Prelude.{IfOk, IfErr, IsTrue, vec_len};
ghost use Rattle.yalwythen_work.specs.Ran.{AllEnded, IsOfEach, IsRefused, IsRun, IsSerial};

use crate::pool::Results;
use crate::role::WorkerRole;
use crate::run_fault::RunFault;
use crate::run_outcome::RunOutcome;
use crate::run_workers::{EndedWorkers, run_workers};
use crate::setup::Setup;
use crate::worker::Worker;
use std::alloc::Global;
use std::sync::Wait;
use std::thread::Threads;
use txc_chan::{Decl, FullLog};

/// Runs these workers like `run`, with this setup for all sessions.
fn run_with<R: Threads + Wait + Sync, W: Worker<R> + Send + Drop>(
    rt: &R,
    setup: Setup,
    decls: &[Decl],
    workers: Vec<W>,
) -> Result<RunOutcome<W>, RunFault>
    ensures ok { IfOk result (λ done. IsRun decls.now (vec_len workers) done.report) }
    ensures serial { IfOk result (λ done. IsTrue setup.audited → IsSerial decls.now done) }
    ensures each { IfOk result (λ done. IsOfEach (vec_len workers) done) }
    ensures came { IfOk result (λ done. AllEnded W.Postcondition workers.items done.workers.items done.ends.items) }
    ensures err { IfErr result (IsRefused decls.now (vec_len workers)) }
{
    let ended = run_workers::<R, FullLog, W, WorkerRole>(rt, setup, decls, workers)?;
    let EndedWorkers { table, results } = ended;
    let Results {
        left,
        workers,
        ends,
        plans,
    } = results;
    let Ok(idle) = table.into_idle(rt, setup.alloc, left) else {
        return Err(RunFault::NoMemory);
    };
    match idle.finish(rt, setup.alloc) {
        Ok(report) => Ok(RunOutcome {
            report,
            workers,
            ends,
            plans,
        }),
        Err(idle) => {
            drop(idle);
            Err(RunFault::NoMemory)
        }
    }
}

/// Runs each worker in a thread of its own, at a table of these channels with a seat for each worker, and finishes the
/// table when all workers have ended. Worker `n` has seat `n`. `Postcondition` holds for each worker, its final value and
/// what it returned.
///
/// Fails with `TooManyWorkers` if there are more than 16 workers, then with `Table` if the table cannot be built, then
/// with `NoThread` if a thread cannot be started, and with `NoMemory` if allocation fails. `Torn` is never returned. On
/// failure the workers are lost; those that were started have ended first. Blocks until all threads have ended.
pub fn run<R: Threads + Wait + Sync, W: Worker<R> + Send + Drop>(
    rt: &R,
    alloc: Global,
    decls: &[Decl],
    workers: Vec<W>,
) -> Result<RunOutcome<W>, RunFault>
    ensures ok { IfOk result (λ done. IsRun decls.now (vec_len workers) done.report) }
    ensures serial { IfOk result (IsSerial decls.now) }
    ensures each { IfOk result (λ done. IsOfEach (vec_len workers) done) }
    ensures came { IfOk result (λ done. AllEnded W.Postcondition workers.items done.workers.items done.ends.items) }
    ensures err { IfErr result (IsRefused decls.now (vec_len workers)) }
{
    let setup = Setup {
        alloc,
        audited: true,
    };
    run_with(rt, setup, decls, workers)
}

/// Runs workers like `run`, without an audit: a committed transaction leaves its receipt and is not noted.
/// `RunOutcome::audit` of such a run returns `Unmet`, unless nothing was committed. Fails with the same errors as
/// `run`. Blocks until all threads have ended.
pub fn run_unaudited<R: Threads + Wait + Sync, W: Worker<R> + Send + Drop>(
    rt: &R,
    alloc: Global,
    decls: &[Decl],
    workers: Vec<W>,
) -> Result<RunOutcome<W>, RunFault>
    ensures ok { IfOk result (λ done. IsRun decls.now (vec_len workers) done.report) }
    ensures each { IfOk result (λ done. IsOfEach (vec_len workers) done) }
    ensures came { IfOk result (λ done. AllEnded W.Postcondition workers.items done.workers.items done.ends.items) }
    ensures err { IfErr result (IsRefused decls.now (vec_len workers)) }
{
    let setup = Setup {
        alloc,
        audited: false,
    };
    run_with(rt, setup, decls, workers)
}
