// Workers at a new table, from building it until all of them have ended.
ghost use Rattle.std.specs.Prelude.{◌≡◌, ◌<◌, ℕ, IfOk, IfErr, IsTrue, None, OnOk, slice_index_or, vec_len};
ghost use Rattle.txc_table_report.specs.Refusal.{refusal};
ghost use Rattle.yalwythen_work.specs.Ran.{AllEnded, IsOfAll, IsRefused};
ghost use Rattle.txc_table.specs.Built.{IsBuilt};
ghost use Rattle.txc_table.specs.Refused.{AreAllSeats};

use crate::pool::{Pool, Results, work_all};
use crate::recording::Recording;
use crate::role::Role;
use crate::run_fault::RunFault;
use crate::setup::Setup;
use std::sync::Wait;
use std::thread::Threads;
use txc_base::MAX_SEATS;
use txc_base_threads::StartError;
use txc_chan::Decl;
use txc_table::{DepartedSeat, Table};

/// A table whose workers have all ended, and their results.
#[derive(Drop)]
pub(crate) struct EndedWorkers<T, L, W> {
    pub(crate) table: T,
    pub(crate) results: Results<L, W>,
}

/// Builds a table of these channels with a seat for each worker, and runs each worker in a thread of its own at the
/// seat with its number. All seats have then left.
///
/// Fails with `TooManyWorkers` if there are more than 16 workers, then with `Table` if the table cannot be built, then
/// with `NoThread` if a thread cannot be started, and with `NoMemory` if allocation fails. Blocks until all threads
/// have ended.
pub(crate) fn run_workers<
    R: Threads + Wait + Sync,
    K: Recording + Send + Sync + 'static,
    W: Send + Drop,
    Q: Role<R, K, W> + Send,
>(
    rt: &R,
    setup: Setup,
    decls: &[Decl],
    workers: Vec<W>,
) -> Result<EndedWorkers<Table<K>, DepartedSeat<K, K::Receipts>, W>, RunFault>
where
    K::Receipts: Send,
    ensures built { IfOk result (λ ended. (made : _) × IsBuilt decls.now (vec_len workers) ended.table made) }
    ensures fine { OnOk result (refusal decls.now (vec_len workers) ≡ None) }
    ensures len { IfOk result (λ ended. IsOfAll (vec_len workers) ended.results) }
    ensures numbered { IfOk result (λ ended. (k : ℕ) (l : _) → k < vec_len workers
        → (slice_index_or ended.results.left.items k l).commits.number ≡ k) }
    ensures back { IfOk result (λ ended. AreAllSeats ended.table.lines ended.table.seats ended.results.left.items) }
    ensures noted { IfOk result (λ ended. IsTrue setup.audited → (k : ℕ) (l : _) (p : _) → k < vec_len workers
        → (slice_index_or ended.results.plans.items k p).kept
        ≡ (slice_index_or ended.results.left.items k l).commits.plans) }
    ensures came { IfOk result (λ ended. AllEnded Q.Postcondition workers.items ended.results.workers.items
        ended.results.ends.items) }
    ensures err { IfErr result (IsRefused decls.now (vec_len workers)) }
{
    if workers.len() > MAX_SEATS {
        return Err(RunFault::TooManyWorkers);
    }
    let seats = workers.len() as u16;
    let (table, seats) = match Table::<K>::build::<K::Receipts>(setup.alloc, decls, seats) {
        Ok(made) => made,
        Err(fault) => return Err(RunFault::Table(fault)),
    };
    let pool = Pool {
        rt,
        setup,
        table: &table,
    };
    match work_all::<R, K, W, Q>(pool, seats, workers) {
        Ok(results) => Ok(EndedWorkers { table, results }),
        Err(StartError::NoThread) => {
            drop(table);
            Err(RunFault::NoThread)
        }
        Err(StartError::NoMemory) => {
            drop(table);
            Err(RunFault::NoMemory)
        }
    }
}
