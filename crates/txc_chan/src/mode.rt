// The result of an operation that cannot be done.
ghost use Rattle.std.specs.Prelude.{◌≡◌};
ghost use Rattle.txc_chan.specs.Mode.{at_bound, at_end};

use crate::answer::Answer;
use txc_base::{Cause, Reply};

/// Whether an operation waits if it cannot be done, or only replies so.
#[derive(Clone, Copy)]
pub(crate) enum Mode {
    Blocking,
    Try,
}

impl Mode {
    /// Returns the result of a write at the bound.
    #[cold]
    pub(crate) fn at_bound(self) -> Answer
        ensures { result ≡ at_bound self }
    {
        match self {
            Mode::Blocking => Answer::Retry(Cause::Full),
            Mode::Try => Answer::Replied(Reply::Full),
        }
    }

    /// Returns the result of a read if an open channel has nothing to read.
    #[cold]
    pub(crate) fn at_end(self) -> Answer
        ensures { result ≡ at_end self }
    {
        match self {
            Mode::Blocking => Answer::Retry(Cause::Empty),
            Mode::Try => Answer::Replied(Reply::Empty),
        }
    }
}
