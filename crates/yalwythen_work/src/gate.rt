// A gate that does nothing.
use txc_table::{Gate, HeldLocks};

/// A gate that does nothing.
#[derive(Drop)]
pub(crate) struct OpenGate;

impl Gate for OpenGate {
    fn pass(&mut self, _held: &HeldLocks) {}
}
