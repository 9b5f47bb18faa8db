// Whether kinds of channels have the operations of steps.
ghost use Rattle.std.specs.Prelude.{◌≡◌, slice_get};
ghost use Rattle.std.specs.List.{list_all};
ghost use Rattle.txc_txn_check.specs.Steps.{every, fits_in, is_fit};

use crate::step::Step;
use txc_base::{Kind, List, Op, supports};

/// Returns whether the channel of an operation exists and has the operation, with reader 0 for a queue.
fn fits_op(kinds: &[Kind], op: &Op) -> bool
    ensures { result ≡ is_fit (slice_get kinds.now) op.now }
{
    let chan = op.chan() as usize;
    if chan >= kinds.len() {
        return false;
    }
    supports(kinds[chan], op)
}

/// Returns whether every operation of a step fits.
#[cycle(fit)]
fn fits_step(kinds: &[Kind], step: &Step) -> bool
    ensures { result ≡ every (is_fit (slice_get kinds.now)) step.now }
{
    match step {
        Step::Do(op) => fits_op(kinds, op),
        Step::Or(branches) => fits_branches(kinds, branches.as_slice()),
        Step::Retry => true,
    }
}

/// Returns whether every operation of these steps fits.
#[cycle(fit)]
pub fn fits_steps(kinds: &[Kind], steps: &[Step]) -> bool
    ensures { result ≡ fits_in (slice_get kinds.now) steps.now }
{
    for step in steps {
        if !fits_step(kinds, step) {
            return false;
        }
    }
    true
}

/// Returns whether every operation of these branches fits.
#[cycle(fit)]
fn fits_branches(kinds: &[Kind], branches: &[List<Step>]) -> bool
    ensures { result ≡ list_all (fits_in (slice_get kinds.now)) branches.now }
{
    for branch in branches {
        if !fits_steps(kinds, branch.as_slice()) {
            return false;
        }
    }
    true
}
