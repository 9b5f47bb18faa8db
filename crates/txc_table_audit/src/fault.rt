// The reasons that a report is not one history.
ghost use Rattle.std.specs.Prelude.{◌≡◌};
ghost use Rattle.txc_table_audit.specs.Fault.{audit_fault_code};

use std::alloc::AllocError;
use thiserror::Error;

/// The reason that a report is not what one thread would have given, or that the audit failed.
#[derive(Debug, Clone, Copy, PartialEq, Eq, Error)]
pub enum AuditFault {
    /// The transaction with this rank, from 0, does not commit, or its receipt differs.
    #[error("wrong reply at rank {0}")]
    WrongReply(usize),
    /// The closed flag, the log or the lists of this channel differ.
    #[error("channel {0} differs")]
    WrongAccount(u16),
    /// The receipts of this seat name another seat, their serials do not rise, or their stamps fall.
    #[error("seat {0} is out of order")]
    OutOfOrder(u16),
    /// Allocation failed.
    #[error("no memory")]
    NoMemory,
}

impl AuditFault {
    /// Returns the number of this fault, from 1.
    pub fn code(&self) -> u8
        ensures { result ≡ audit_fault_code self.now }
    {
        match self {
            AuditFault::WrongReply(_) => 1,
            AuditFault::WrongAccount(_) => 2,
            AuditFault::OutOfOrder(_) => 3,
            AuditFault::NoMemory => 4,
        }
    }
}

impl From<AllocError> for AuditFault {
    ghost use Rattle.txc_table_audit.specs.declared.fault.AuditFault.TheVariants.{NoMemory};

    ghost from_gives = { λ _ fault. fault ≡ NoMemory };

    fn from(_refused: AllocError) -> AuditFault {
        AuditFault::NoMemory
    }
}
