// The threads of a script.
ghost use Rattle.std.specs.Prelude.{◌≡◌, IfOk, IfErr, length, vec_len};
ghost use Rattle.txc_cmd_threads.specs.Ran.{IsRan, IsNotTorn};

use crate::closing::close;
use crate::gate::Gate;
use crate::pool::{Pool, work_all};
use crate::run_fault::RunFault;
use std::alloc::Global;
use std::sync::Wait;
use std::thread::Threads;
use txc_chan::FullLog;
use txc_cmd_report::Outcome;
use txc_cmd_script::Script;
use txc_table::{AllReceipts, Table};

/// A gate that does nothing.
#[derive(Drop)]
struct OpenGate;

impl Gate for OpenGate {
    fn pass(&mut self) {}
}

/// Runs a script with one thread per seat and returns its outcome. Each thread calls its gate once, with no lock held
/// and before the first transaction, even if the seat has no transactions. The thread then runs the seat's transactions
/// in order. Each one runs until it commits, aborts, or all seats that have not left wait. The seat then leaves. There
/// must be one gate per seat.
///
/// Fails with `NoThread` if a thread cannot be started, and otherwise with `NoMemory` if allocation fails. `Torn` is
/// never returned. Blocks until all threads have ended.
pub fn run_gated<R: Threads + Wait + Sync, G: Gate + Send + Drop>(
    rt: &R,
    alloc: Global,
    script: &Script,
    gates: Vec<G>,
) -> Result<Outcome, RunFault>
    requires { vec_len gates ≡ length script.now.seats }
    ensures ok { IfOk result (IsRan script.now.decls script.now.seats) }
    ensures err { IfErr result IsNotTorn }
{
    script.show();
    let plans = script.seats();
    let seats = plans.len() as u16;
    let (table, seats) = match Table::<FullLog>::build::<AllReceipts>(
        alloc,
        script.decls(),
        seats,
    ) {
        Ok(made) => made,
        // Each channel of a script can be made, so the build fails only if allocation fails.
        Err(_) => return Err(RunFault::NoMemory),
    };
    let pool = Pool {
        rt,
        alloc,
        table: &table,
        plans,
    };
    let results = work_all(pool, seats, gates)?;
    close(rt, alloc, table, plans, results)
}

/// Runs a script with one thread per seat and returns its outcome, like `run_gated` with gates that do nothing. Fails
/// with `NoThread` or `NoMemory` like `run_gated`. Blocks until all threads have ended.
pub fn run_threads<R: Threads + Wait + Sync>(
    rt: &R,
    alloc: Global,
    script: &Script,
) -> Result<Outcome, RunFault>
    ensures ok { IfOk result (IsRan script.now.decls script.now.seats) }
    ensures err { IfErr result IsNotTorn }
{
    let mut gates = Vec::new(alloc);
    for _seat in script.seats() {
        gates.push(OpenGate)?;
    }
    run_gated(rt, alloc, script, gates)
}
