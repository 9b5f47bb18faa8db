// The result of a service.
ghost use Rattle.std.specs.Prelude.{◌≡◌};

use crate::run_outcome::ended;
use crate::transact_error::TransactError;
use crate::worker_error::WorkerError;
use txc_base::List;
use txc_chan::Summary;

/// The result of a service, once all its servers have ended.
#[derive(Debug, Drop)]
pub struct ServiceOutcome<W> {
    /// The final channels, by channel number. They include the lengths of the logs, but not the logs.
    pub summaries: List<Summary>,
    /// The servers as they were when they ended, in the order in which they were passed to `serve`.
    pub servers: Vec<W>,
    /// What each server returned, in the same order as `servers`.
    pub ends: Vec<Result<(), TransactError>>,
}

impl<W> ServiceOutcome<W> {
    ghost use Rattle.yalwythen_work.specs.Ends.{end_of};

    /// Returns `Ok` if every server returned `Ok`. Otherwise returns the error of the first server whose error is not
    /// `Stalled`. If all errors are `Stalled`, returns the first of them.
    pub fn ended(&self) -> Result<(), WorkerError>
        ensures { result ≡ end_of self.now.ends.items }
    {
        ended(self.ends.as_slice())
    }
}
