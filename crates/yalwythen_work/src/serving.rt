// A service, from building the table to its end.
ghost use Rattle.std.specs.Prelude.{◌≡◌, IfOk, IfErr, false, vec_len};
ghost use Rattle.yalwythen_work.specs.Ran.{AllEnded, IsOfAll, IsOfEachServer, IsRefused, IsService};
ghost use Rattle.txc_table.specs.Finished.{IsFinishedInSummary};
ghost use Rattle.txc_table.specs.Refused.{AreAllSeats};

use crate::pool::Results;
use crate::role::ServerRole;
use crate::run_fault::RunFault;
use crate::run_workers::{EndedWorkers, run_workers};
use crate::server::Server;
use crate::service_outcome::ServiceOutcome;
use crate::setup::Setup;
use std::alloc::Global;
use std::sync::Wait;
use std::thread::Threads;
use txc_chan::{Decl, GhostLog};
use txc_table::{DepartedSeat, FinishFault, LastReceipt, Table};

/// Finishes the table, once all its servers have ended. Fails with `NoMemory` if allocation fails.
fn close<R: Wait, W: Drop>(
    rt: &R,
    alloc: Global,
    ended: EndedWorkers<Table<GhostLog>, DepartedSeat<GhostLog, LastReceipt>, W>,
) -> Result<ServiceOutcome<W>, RunFault>
    requires many { IsOfAll ended.table.seats ended.results }
    requires back { AreAllSeats ended.table.lines ended.table.seats ended.results.left.items }
    ensures summaries { IfOk result (λ outcome.
        IsFinishedInSummary ended.table ended.results.left.items outcome.summaries) }
    ensures each { IfOk result (λ outcome. IsOfEachServer ended.table.seats outcome) }
    ensures servers { IfOk result (λ outcome. (outcome.servers ≡ ended.results.workers)
        × (outcome.ends ≡ ended.results.ends)) }
    ensures err { IfErr result (λ fault. fault ≡ RunFault.NoMemory) }
{
    let EndedWorkers { table, results } = ended;
    let Results {
        left,
        workers,
        ends,
        plans: _,
    } = results;
    match table.finish_in_summary(rt, alloc, left) {
        Ok(summaries) => Ok(ServiceOutcome {
            summaries,
            servers: workers,
            ends,
        }),
        Err(FinishFault::NoMemory(table, left)) => {
            drop(table);
            drop(left);
            Err(RunFault::NoMemory)
        }
        Err(FinishFault::SeatMissing(_, _)) => unreachable!(),
        Err(FinishFault::Torn { .. }) => unreachable!(),
    }
}

/// Runs these servers like `serve`, with this setup for all sessions, which must not note transactions.
fn serve_with<R: Threads + Wait + Sync, W: Server<R> + Send + Drop>(
    rt: &R,
    setup: Setup,
    decls: &[Decl],
    servers: Vec<W>,
) -> Result<ServiceOutcome<W>, RunFault>
    requires unnoted { setup.audited ≡ false }
    ensures ok { IfOk result (λ outcome. IsService decls.now (vec_len servers) outcome.summaries) }
    ensures each { IfOk result (λ outcome. IsOfEachServer (vec_len servers) outcome) }
    ensures came { IfOk result (λ outcome. AllEnded W.Postcondition servers.items outcome.servers.items outcome.ends.items) }
    ensures err { IfErr result (IsRefused decls.now (vec_len servers)) }
{
    let ended = run_workers::<R, GhostLog, W, ServerRole>(rt, setup, decls, servers)?;
    close(rt, setup.alloc, ended)
}

/// Runs each server in a thread of its own, at a table of these channels with a seat for each server, and finishes the
/// table when all servers have ended. Unlike `run`, it keeps only the items in the channels and each session's last
/// receipt. So memory use does not grow with the number of transactions. Most services end when the channels that their
/// servers read are closed.
///
/// Fails with `TooManyWorkers` if there are more than 16 servers, then with `Table` if the table cannot be built, then
/// with `NoThread` if a thread cannot be started, and with `NoMemory` if allocation fails. On failure the servers are
/// lost; those that were started have ended first. Blocks until all threads have ended.
pub fn serve<R: Threads + Wait + Sync, W: Server<R> + Send + Drop>(
    rt: &R,
    alloc: Global,
    decls: &[Decl],
    servers: Vec<W>,
) -> Result<ServiceOutcome<W>, RunFault>
    ensures ok { IfOk result (λ outcome. IsService decls.now (vec_len servers) outcome.summaries) }
    ensures each { IfOk result (λ outcome. IsOfEachServer (vec_len servers) outcome) }
    ensures came { IfOk result (λ outcome. AllEnded W.Postcondition servers.items outcome.servers.items outcome.ends.items) }
    ensures err { IfErr result (IsRefused decls.now (vec_len servers)) }
{
    let setup = Setup {
        alloc,
        audited: false,
    };
    serve_with(rt, setup, decls, servers)
}
