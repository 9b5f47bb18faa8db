// The walk over steps that finds the first fault.
ghost use Rattle.std.specs.Prelude.{◌≡◌, ◌≤◌, ◌<◌, length, slice_get, OnOk, OnErr, IfErr};
ghost use Rattle.txc_txn_check.specs.Limits.{max_declared, max_nested};
ghost use Rattle.txc_txn_check.specs.Tally.{tally_of};
ghost use Rattle.txc_txn_check.specs.Walk.{Fine, Faulty, walk_branches, walk_op, walk_step, walk_steps, with_channel};

use crate::fault::TxnFault;
use crate::limits::{MAX_DECLARED, MAX_NESTED, MAX_OPERATIONS};
use crate::step::Step;
use arrayvec::ArrayVec;
use txc_base::{Kind, List, Op, allowed, names_its_reader};

/// What a walk has seen.
#[derive(Drop)]
pub struct Seen {
    /// How many operations it has seen.
    pub operations: usize,
    /// The channels of these operations, in rising order and without duplicates.
    pub channels: ArrayVec<u16, MAX_DECLARED>,
}

/// Adds a channel, unless it is already there. Fails with `TooManyChannels` if the list is full.
fn add_channel(channels: &mut ArrayVec<u16, MAX_DECLARED>, chan: u16) -> Result<(), TxnFault>
    ensures ok { OnOk result (channels.new.items ≡ with_channel chan channels.old.items) }
    ensures few { OnOk result (length channels.new.items ≤ max_declared) }
    ensures many { OnErr result (max_declared < length (with_channel chan channels.old.items)) }
    ensures err { IfErr result (λ fault. fault ≡ TxnFault.TooManyChannels) }
{
    let mut at = 0;
    while at < channels.len() && channels[at] < chan {
        at += 1;
    }
    if at < channels.len() && channels[at] == chan {
        return Ok(());
    }
    if channels.len() >= MAX_DECLARED {
        return Err(TxnFault::TooManyChannels);
    }
    channels.insert(at, chan);
    Ok(())
}

/// Walks over an operation. Fails with its first fault.
fn see_op(seen: &mut Seen, kinds: &[Kind], op: &Op) -> Result<(), TxnFault>
    ensures ok { OnOk result (walk_op (slice_get kinds.now) op.now (tally_of seen.old) ≡ Fine (tally_of seen.new)) }
    ensures err { IfErr result (λ fault. walk_op (slice_get kinds.now) op.now (tally_of seen.old) ≡ Faulty fault) }
{
    if seen.operations >= MAX_OPERATIONS {
        return Err(TxnFault::TooLong);
    }
    let chan = op.chan();
    if chan as usize >= kinds.len() {
        return Err(TxnFault::NoChannel);
    }
    let kind = kinds[chan as usize];
    if !allowed(kind, op) {
        return Err(TxnFault::NotForKind);
    }
    if !names_its_reader(kind, op) {
        return Err(TxnFault::NoReader);
    }
    add_channel(&mut seen.channels, chan)?;
    seen.operations += 1;
    Ok(())
}

/// Adds the operations and the channels of a step to those that were seen. `depth` is the number of alternatives around
/// the step. Fails with its first fault; `seen` may then have a part of the step.
#[cycle(walk)]
fn see_step(seen: &mut Seen, kinds: &[Kind], depth: usize, step: &Step) -> Result<(), TxnFault>
    requires shallow { depth ≤ max_nested }
    ensures ok { OnOk result (walk_step (slice_get kinds.now) step.now depth (tally_of seen.old)
        ≡ Fine (tally_of seen.new)) }
    ensures err { IfErr result (λ fault. walk_step (slice_get kinds.now) step.now depth (tally_of seen.old)
        ≡ Faulty fault) }
{
    match step {
        Step::Do(op) => see_op(seen, kinds, op),
        Step::Or(branches) => {
            if depth >= MAX_NESTED {
                return Err(TxnFault::TooDeep);
            }
            see_branches(seen, kinds, depth + 1, branches.as_slice())
        }
        Step::Retry => Ok(()),
    }
}

/// Adds the operations and the channels of steps to those that were seen, like `see_step`.
#[cycle(walk)]
pub fn see_steps(
    seen: &mut Seen,
    kinds: &[Kind],
    depth: usize,
    steps: &[Step],
) -> Result<(), TxnFault>
    requires shallow { depth ≤ max_nested }
    ensures ok { OnOk result (walk_steps (slice_get kinds.now) steps.now depth (tally_of seen.old)
        ≡ Fine (tally_of seen.new)) }
    ensures err { IfErr result (λ fault. walk_steps (slice_get kinds.now) steps.now depth (tally_of seen.old)
        ≡ Faulty fault) }
{
    for step in steps {
        see_step(seen, kinds, depth, step)?;
    }
    Ok(())
}

/// Adds the operations and the channels of alternatives to those that were seen, like `see_step`.
#[cycle(walk)]
fn see_branches(
    seen: &mut Seen,
    kinds: &[Kind],
    depth: usize,
    branches: &[List<Step>],
) -> Result<(), TxnFault>
    requires shallow { depth ≤ max_nested }
    ensures ok { OnOk result (walk_branches (slice_get kinds.now) branches.now depth (tally_of seen.old)
        ≡ Fine (tally_of seen.new)) }
    ensures err { IfErr result (λ fault. walk_branches (slice_get kinds.now) branches.now depth (tally_of seen.old)
        ≡ Faulty fault) }
{
    for branch in branches {
        see_steps(seen, kinds, depth, branch.as_slice())?;
    }
    Ok(())
}
