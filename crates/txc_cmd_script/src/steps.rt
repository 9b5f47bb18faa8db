// Reads the steps of a transaction from a tree.
ghost use Rattle.std.specs.Prelude.{◌≡◌, ◌≢◌, Ok, Err, IfOk, IfErr};
ghost use Rattle.serde_json.specs.Find.{as_str};
ghost use Rattle.serde_json.specs.View.{view, items_view};
ghost use Rattle.txc_cmd_script.specs.Steps.{are_lists, step_name_in, simple_step, step_in_tree, steps_in_tree};
ghost use Rattle.txc_cmd_script.specs.Steps.{branches_in_items};

use crate::operation::read_op;
use crate::step_name::{StepName, read_step_name};
use serde_json::Value;
use std::alloc::{AllocError, AllocFailed, Global};
use txc_base::List;
use txc_txn_check::Step;

/// Why the steps of a transaction cannot be read.
#[derive(Clone, Copy)]
pub(crate) enum StepFault {
    /// The tree does not have the shape of steps.
    Shape,
    /// The first element of a step is not a step name.
    UnknownOp,
    /// Allocation failed.
    NoMemory,
}

impl From<AllocError> for StepFault {
    ghost use Rattle.txc_cmd_script.specs.declared.steps.StepFault.TheVariants.{NoMemory};

    ghost from_gives = { λ _ why. why ≡ NoMemory };

    fn from(_refused: AllocError) -> StepFault {
        StepFault::NoMemory
    }
}

impl<T: Drop> From<AllocFailed<T>> for StepFault {
    ghost use Rattle.txc_cmd_script.specs.declared.steps.StepFault.TheVariants.{NoMemory};

    ghost from_gives = { λ _ why. why ≡ NoMemory };

    fn from(_refused: AllocFailed<T>) -> StepFault {
        StepFault::NoMemory
    }
}

/// Returns whether each of these trees is a list.
fn all_lists(trees: &[Value]) -> bool
    ensures { result ≡ are_lists (items_view trees.now) }
{
    for tree in trees {
        if !tree.is_array() {
            return false;
        }
    }
    true
}

/// Reads the name of a step, which is its first element.
fn read_name(name: &Value) -> Result<StepName, StepFault>
    ensures { result ≡ step_name_in (as_str (view name.now)) }
{
    let Some(name) = name.as_str() else {
        return Err(StepFault::Shape);
    };
    match read_step_name(name) {
        Some(step_name) => Ok(step_name),
        None => Err(StepFault::UnknownOp),
    }
}

/// Reads a step without branches from its name and the elements after it.
fn read_simple_step(step_name: StepName, operands: &[Value]) -> Result<Step, StepFault>
    ensures { result ≡ simple_step step_name (items_view operands.now) }
{
    match step_name {
        StepName::Retry if operands.is_empty() => Ok(Step::Retry),
        StepName::Retry => Err(StepFault::Shape),
        _ => match read_op(step_name, operands) {
            Some(op) => Ok(Step::Do(op)),
            None => Err(StepFault::Shape),
        },
    }
}

/// Reads a step from a tree.
#[cycle(reading)]
fn read_step(alloc: Global, tree: &Value) -> Result<Step, StepFault>
    ensures ok { IfOk result (λ step. step_in_tree (view tree.now) ≡ Ok step) }
    ensures err { IfErr result (λ why. why ≢ StepFault.NoMemory → step_in_tree (view tree.now) ≡ Err why) }
{
    let Value::Array(elements) = tree else {
        return Err(StepFault::Shape);
    };
    let [name, operands @ ..] = elements.as_slice() else {
        return Err(StepFault::Shape);
    };
    match read_name(name)? {
        StepName::Or if all_lists(operands) => {
            Ok(Step::Or(List::from_vec(read_branches(alloc, operands)?)))
        }
        StepName::Or => Err(StepFault::Shape),
        step_name => read_simple_step(step_name, operands),
    }
}

/// Reads the steps of a tree.
#[cycle(reading)]
pub(crate) fn read_steps(alloc: Global, tree: &Value) -> Result<Vec<Step>, StepFault>
    ensures ok { IfOk result (λ steps. steps_in_tree (view tree.now) ≡ Ok steps.items) }
    ensures err { IfErr result (λ why. why ≢ StepFault.NoMemory → steps_in_tree (view tree.now) ≡ Err why) }
{
    let Value::Array(elements) = tree else {
        return Err(StepFault::Shape);
    };
    let mut steps = Vec::with_capacity(alloc, elements.len())?;
    for element in elements {
        let step = read_step(alloc, element)?;
        steps.push(step)?;
    }
    Ok(steps)
}

/// Reads branches from their trees.
#[cycle(reading)]
fn read_branches(alloc: Global, trees: &[Value]) -> Result<Vec<List<Step>>, StepFault>
    ensures ok { IfOk result (λ branches. branches_in_items (items_view trees.now) ≡ Ok branches.items) }
    ensures err { IfErr result (λ why. why ≢ StepFault.NoMemory → branches_in_items (items_view trees.now) ≡ Err why) }
{
    let mut branches = Vec::with_capacity(alloc, trees.len())?;
    for tree in trees {
        let branch = List::from_vec(read_steps(alloc, tree)?);
        branches.push(branch)?;
    }
    Ok(branches)
}
