// Why threads have no outputs.
ghost use Rattle.std.specs.Prelude.{◌≡◌};

use std::alloc::{AllocError, AllocFailed};

/// Why the outputs of threads are missing.
#[derive(Debug, PartialEq, Eq, Drop)]
pub enum StartError {
    /// A thread could not be started.
    NoThread,
    /// Allocation failed.
    NoMemory,
}

impl From<AllocError> for StartError {
    ghost use Rattle.txc_base_threads.specs.declared.start_error.StartError.TheVariants.{NoMemory};

    ghost from_gives = { λ _ error. error ≡ NoMemory };

    fn from(_refused: AllocError) -> StartError {
        StartError::NoMemory
    }
}

impl<T: Drop> From<AllocFailed<T>> for StartError {
    ghost use Rattle.txc_base_threads.specs.declared.start_error.StartError.TheVariants.{NoMemory};

    ghost from_gives = { λ _ error. error ≡ NoMemory };

    fn from(_refused: AllocFailed<T>) -> StartError {
        StartError::NoMemory
    }
}
