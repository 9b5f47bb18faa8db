// What the author of a service writes.
ghost use Rattle.std.specs.Prelude.{Result};
ghost use Rattle.yalwythen_work.specs.declared.transact_error.TransactError.{TransactError as TransactErrors};

use crate::session::Session;
use crate::transact_error::TransactError;
use std::sync::Wait;
use txc_chan::GhostLog;

/// The code of one thread of a service, which it runs at its session. Unlike the table of a `Worker`, its table keeps
/// no log, and its session keeps only the last receipt.
pub trait Server<R: Wait> {
    /// The server's own claim about its value before it ran, its final value and what it returned. The contract of
    /// `serve` states it for each server. An `impl` that leaves it out claims nothing.
    ghost Postcondition: { Self → Self → Result Unit TransactErrors → Type 0 } = { λ _ _ _. Unit {0} };

    /// Serves until there is nothing left to do. `ServiceOutcome` has the value that it returns, and the server's final
    /// value.
    fn serve(&mut self, rt: &R, session: &mut Session<'_, GhostLog>) -> Result<(), TransactError>
        ensures { Postcondition self.old self.new result };
}
