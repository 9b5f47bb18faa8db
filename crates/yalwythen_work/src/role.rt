// The role of a thread: a worker in a run, or a server in a service.
ghost use Rattle.std.specs.Prelude.{Result};
ghost use Rattle.yalwythen_work.specs.declared.transact_error.TransactError.{TransactError as TransactErrors};

use crate::recording::Recording;
use crate::server::Server;
use crate::session::Session;
use crate::transact_error::TransactError;
use crate::worker::Worker;
use std::sync::Wait;
use txc_chan::{FullLog, GhostLog};

/// How the workers of one role run at their sessions.
pub(crate) trait Role<R: Wait, K: Recording, W> {
    /// The worker's own claim about its value before it ran, its final value and what it returned.
    ghost Postcondition: { W → W → Result Unit TransactErrors → Type 0 };

    /// Runs the worker at this session.
    fn work(worker: &mut W, rt: &R, session: &mut Session<'_, K>) -> Result<(), TransactError>
        ensures { Postcondition worker.old worker.new result };
}

/// The role of a worker in a run. Its table keeps all logs and receipts.
#[derive(Drop)]
pub(crate) struct WorkerRole;

impl<R: Wait, W: Worker<R>> Role<R, FullLog, W> for WorkerRole {
    ghost Postcondition = { W.Postcondition };

    fn work(worker: &mut W, rt: &R, session: &mut Session<'_>) -> Result<(), TransactError> {
        worker.work(rt, session)
    }
}

/// The role of a server in a service. Its table keeps no log, and each seat keeps only its last receipt.
#[derive(Drop)]
pub(crate) struct ServerRole;

impl<R: Wait, W: Server<R>> Role<R, GhostLog, W> for ServerRole {
    ghost Postcondition = { W.Postcondition };

    fn work(
        worker: &mut W,
        rt: &R,
        session: &mut Session<'_, GhostLog>,
    ) -> Result<(), TransactError> {
        worker.serve(rt, session)
    }
}
