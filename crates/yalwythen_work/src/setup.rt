// The settings that all sessions share.
use std::alloc::Global;

/// The settings that all sessions share.
#[derive(Clone, Copy)]
pub(crate) struct Setup {
    /// The allocator.
    pub(crate) alloc: Global,
    /// Whether committed transactions are noted for the audit.
    pub(crate) audited: bool,
}
