// A worker's error, with the worker's number.
use crate::transact_error::TransactError;
use thiserror::Error;

/// The error of a worker, and the worker's number.
#[derive(Debug, Clone, Copy, PartialEq, Eq, Error)]
#[error("worker {worker}: {error}")]
pub struct WorkerError {
    /// The number of the worker, from 0.
    pub worker: usize,
    /// Why the worker could not continue.
    pub error: TransactError,
}
