// How a run ends.
use crate::receipt::Receipt;
use txc_base::Cause;

/// How the run of a transaction ended.
#[derive(Debug, PartialEq, Eq, Drop)]
pub enum Ran {
    /// It committed, with this receipt.
    Kept(Receipt),
    /// It must be retried. It has changed nothing.
    Retry(Cause),
}
