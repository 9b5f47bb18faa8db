// Why a run fails its audit.
use thiserror::Error;
use txc_table_audit::{AuditFault, Condition};

/// Why a run fails its audit.
#[derive(Debug, PartialEq, Eq, Drop, Error)]
pub enum AuditError {
    /// The report is not of these channels, or not of these transactions.
    #[error("another run")]
    Unmet(Condition),
    /// The report is not what one thread would have produced, or allocation failed.
    #[error("{0}")]
    Mismatch(AuditFault),
}
