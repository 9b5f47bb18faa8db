// What the author of a run writes.
ghost use Rattle.std.specs.Prelude.{Result};
ghost use Rattle.yalwythen_work.specs.declared.transact_error.TransactError.{TransactError as TransactErrors};

use crate::session::Session;
use crate::transact_error::TransactError;
use std::sync::Wait;

/// The code of one thread, which it runs at its session.
pub trait Worker<R: Wait> {
    /// The worker's own claim about its value before it ran, its final value and what it returned. The contract of
    /// `run` states it for each worker. An `impl` that leaves it out claims nothing.
    ghost Postcondition: { Self → Self → Result Unit TransactErrors → Type 0 } = { λ _ _ _. Unit {0} };

    /// Works until there is nothing left to do. `RunOutcome` has the value that it returns, and the worker's final
    /// value.
    fn work(&mut self, rt: &R, session: &mut Session<'_>) -> Result<(), TransactError>
        ensures { Postcondition self.old self.new result };
}
