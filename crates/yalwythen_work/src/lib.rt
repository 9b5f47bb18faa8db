//! Runs workers that you write: one thread per worker, each with a session at a shared table of channels.
//!
//! ```text
//! /// Hands on what channel 0 has until it is closed and empty, and then closes channel 1.
//! #[derive(Drop)]
//! struct HandsOn;
//!
//! impl<R: Wait> Worker<R> for HandsOn {
//!     fn work(&mut self, rt: &R, session: &mut Session<'_>) -> Result<(), TransactError> {
//!         let (read, write) = (Op::Read { chan: 0, reader: 0 }, Op::Write { chan: 1, body: Source::Last });
//!         for _ in rt.forever() {
//!             let Some(_item) = session.take(rt, [Step::Do(read), Step::Do(write)])? else {
//!                 break;
//!             };
//!         }
//!         session.run(rt, [Step::Do(Op::Close { chan: 1 })])
//!     }
//! }
//!
//! let done = run(&rt, alloc, &channels, workers)?;
//! let ranks = done.audit(&rt, alloc, &channels)?;
//! ```
//!
//! For a long-running service, use `Server` instead of `Worker` and `serve` instead of `run`. A service records no
//! history.
//!
//! A worker needs no type parameter, no ghost member and no proof file. If it defines `Postcondition`, the contract of
//! `run` states `Postcondition` for each worker. A worker's number is its index in the list of workers, and the number
//! of its seat.
//!
//! A public function that cannot return `NoMemory` or `AllocFailed` does not allocate. A function without a `Wait`
//! handle does not block.
#![tactic(auto)]

mod answers;
mod audit_error;
mod gate;
mod job;
mod one_shot;
mod plans;
mod pool;
mod read_outcome;
mod recording;
mod role;
mod run_fault;
mod run_outcome;
mod run_workers;
mod running;
mod seat_with_plans;
mod send_outcome;
mod server;
mod service_outcome;
mod serving;
mod session;
mod setup;
mod states;
mod transact_error;
mod typed_channel;
mod worker;
mod worker_error;

pub use audit_error::AuditError;
pub use plans::Plans;
pub use read_outcome::ReadOutcome;
pub use recording::Recording;
pub use run_fault::RunFault;
pub use run_outcome::RunOutcome;
pub use running::{run, run_unaudited};
pub use send_outcome::{SendError, SendOutcome};
pub use server::Server;
pub use service_outcome::ServiceOutcome;
pub use serving::serve;
pub use session::{Prepared, Session};
pub use transact_error::TransactError;
pub use typed_channel::TypedChannel;
pub use worker::Worker;
pub use worker_error::WorkerError;
