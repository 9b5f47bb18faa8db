// The steps of a transaction in a caller's array.
ghost use Rattle.std.specs.Prelude.{◌≡◌, ◌++◌, ◌∷◌, [], Some, All, IfOk, IfErr, IfSome, OnOk, map};
ghost use Rattle.txc_txn_check.specs.declared.step.Step.TheVariants.{Do};
ghost use Rattle.yalwythen_domain.specs.RawSteps.{IsPlain};
ghost use Rattle.yalwythen_domain.specs.Single.{list_of_steps};
ghost use Rattle.yalwythen_domain.specs.Written.{AreSteps, read_so_far, token_of};
ghost use Rattle.yalwythen_domain.specs.Written.{Begin, End, Next};

use crate::numbers::step_numbered;
use std::alloc::{AllocFailed, Global};
use std::mem;
use txc_base::{List, Op};
use txc_txn_check::{MAX_NESTED, Step};

/// A step of a transaction, by its number, with its channel, its reader and its body. Number 19 begins alternatives, 20
/// ends a branch and begins the next one, and 21 ends alternatives.
#[repr(C)]
#[derive(Clone, Copy)]
pub struct RawStep {
    pub number: u32,
    pub chan: u16,
    pub reader: u16,
    pub body: u64,
}

/// Begins alternatives, and their first branch.
const EITHER: u32 = 19;
/// Ends a branch, and begins the next one.
const OR: u32 = 20;
/// Ends the last branch, and with it the alternatives.
const END: u32 = 21;

/// Why an array is not a list of steps.
#[derive(Debug, Clone, Copy)]
pub(crate) enum RawStepError {
    /// A raw step has a number that no step has.
    NoSuch,
    /// A branch or alternatives end without a beginning, or begin without an end.
    Unpaired,
    /// Alternatives are nested more than 8 deep.
    TooDeep,
    /// Allocation failed.
    NoMemory,
}

impl<T: Drop> From<AllocFailed<T>> for RawStepError {
    ghost use Rattle.yalwythen_domain.specs.declared.raw_steps.RawStepError.TheVariants.{NoMemory};

    ghost from_gives = { λ _ fault. fault ≡ NoMemory };

    fn from(_refused: AllocFailed<T>) -> RawStepError {
        RawStepError::NoMemory
    }
}

/// Alternatives that have not ended: their branches that have ended, and the steps before them.
#[derive(Drop)]
struct Alternatives {
    before: Vec<Step>,
    branches: Vec<List<Step>>,
}

/// What was read so far: the alternatives that have not ended, outermost first, and the steps of the innermost branch.
#[derive(Drop)]
struct Reading {
    alloc: Global,
    nested: Vec<Alternatives>,
    steps: Vec<Step>,
}

impl Reading {
    /// Takes the steps of the branch that is being read, and leaves none.
    fn take_steps(&mut self) -> Vec<Step>
        ensures taken { result.items ≡ self.old.steps.items }
        ensures left { (self.new.steps.items ≡ []) × (self.new.nested ≡ self.old.nested) }
    {
        mem::replace(&mut self.steps, Vec::new(self.alloc))
    }

    /// Begins alternatives.
    fn begin(&mut self) -> Result<(), RawStepError>
        ensures { OnOk result (read_so_far self.new.nested.items self.new.steps.items
            ≡ read_so_far self.old.nested.items self.old.steps.items ++ Begin ∷ []) }
    {
        if self.nested.len() >= MAX_NESTED {
            return Err(RawStepError::TooDeep);
        }
        let before = self.take_steps();
        let branches = Vec::new(self.alloc);
        self.nested.push(Alternatives { before, branches })?;
        Ok(())
    }

    /// Ends a branch, and begins the next one.
    fn next_branch(&mut self) -> Result<(), RawStepError>
        ensures { OnOk result (read_so_far self.new.nested.items self.new.steps.items
            ≡ read_so_far self.old.nested.items self.old.steps.items ++ Next ∷ []) }
    {
        let steps = self.take_steps();
        let Some(mut alternatives) = self.nested.pop() else {
            return Err(RawStepError::Unpaired);
        };
        alternatives.branches.push(List::from_vec(steps))?;
        self.nested.push(alternatives)?;
        Ok(())
    }

    /// Ends alternatives, and adds them as a step to the branch that contains them.
    fn end(&mut self) -> Result<(), RawStepError>
        ensures { OnOk result (read_so_far self.new.nested.items self.new.steps.items
            ≡ read_so_far self.old.nested.items self.old.steps.items ++ End ∷ []) }
    {
        let steps = self.take_steps();
        let Some(mut alternatives) = self.nested.pop() else {
            return Err(RawStepError::Unpaired);
        };
        alternatives.branches.push(List::from_vec(steps))?;
        self.steps = alternatives.before;
        self.steps
            .push(Step::Or(List::from_vec(alternatives.branches)))?;
        Ok(())
    }

    /// Reads one raw step.
    fn read(&mut self, raw_step: &RawStep) -> Result<(), RawStepError>
        ensures nested { OnOk result (IsPlain raw_step.now → self.new.nested.items ≡ self.old.nested.items) }
        ensures tokens { OnOk result (map Some (read_so_far self.new.nested.items self.new.steps.items)
            ≡ map Some (read_so_far self.old.nested.items self.old.steps.items) ++ token_of raw_step.now ∷ []) }
        ensures err { IfErr result (λ fault. IsPlain raw_step.now → fault ≡ RawStepError.NoMemory) }
    {
        match raw_step.number {
            EITHER => self.begin(),
            OR => self.next_branch(),
            END => self.end(),
            number => {
                let Some(step) = step_numbered(
                    number,
                    raw_step.chan,
                    raw_step.reader,
                    raw_step.body,
                ) else {
                    return Err(RawStepError::NoSuch);
                };
                self.steps.push(step)?;
                Ok(())
            }
        }
    }
}

/// The steps of a transaction: one operation that is the only step, or a list.
#[derive(Drop)]
pub(crate) enum Steps {
    One(Op),
    Many(Vec<Step>),
}

/// Returns the operation that is the only step in an array, if there is one.
pub(crate) fn only_operation(raw_steps: &[RawStep]) -> Option<Op>
    ensures { IfSome result (λ op. AreSteps raw_steps.now (Do op ∷ [])) }
{
    if raw_steps.len() != 1 {
        return None;
    }
    let raw_step = raw_steps[0];
    match step_numbered(
        raw_step.number,
        raw_step.chan,
        raw_step.reader,
        raw_step.body,
    ) {
        Some(Step::Do(op)) => Some(op),
        _ => None,
    }
}

/// Reads the steps in an array. Fails if the array is not a list of steps, or if an allocation fails. Allocates unless
/// the only step is an operation.
pub(crate) fn read_raw_steps(alloc: Global, raw_steps: &[RawStep]) -> Result<Steps, RawStepError>
    ensures written { IfOk result (λ steps. AreSteps raw_steps.now (list_of_steps steps)) }
    ensures err { IfErr result (λ fault. All IsPlain raw_steps.now → fault ≡ RawStepError.NoMemory) }
{
    if let Some(op) = only_operation(raw_steps) {
        return Ok(Steps::One(op));
    }
    Ok(Steps::Many(read_steps(alloc, raw_steps)?))
}

/// Reads the steps in an array as a list. Fails like `read_raw_steps`.
fn read_steps(alloc: Global, raw_steps: &[RawStep]) -> Result<Vec<Step>, RawStepError>
    ensures written { IfOk result (λ steps. AreSteps raw_steps.now steps.items) }
    ensures err { IfErr result (λ fault. All IsPlain raw_steps.now → fault ≡ RawStepError.NoMemory) }
{
    let mut reading = Reading {
        alloc,
        nested: Vec::new(alloc),
        steps: Vec::new(alloc),
    };
    for raw_step in raw_steps {
        reading.read(raw_step)?;
    }
    if !reading.nested.is_empty() {
        return Err(RawStepError::Unpaired);
    }
    Ok(reading.steps)
}
