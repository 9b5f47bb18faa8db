// A step of a transaction.
use std::fmt;
use txc_base::{List, Op};

/// A step of a transaction.
#[derive(Debug, Drop)]
pub enum Step {
    /// Runs an operation.
    Do(Op),
    /// Runs the first of these branches that doesn't retry. Each branch begins in the state before this step.
    Or(List<List<Step>>),
    /// Retries: the innermost branch that contains it is undone, and the next one is tried. After the last branch the
    /// step with the branches retries too. Outside of all branches the transaction must be retried.
    Retry,
}

// The text of the step in a script.
impl fmt::Display for Step {
    fn fmt<W: fmt::Write>(&self, f: &mut fmt::Formatter<W>) -> fmt::Result {
        match self {
            Step::Do(op) => op.fmt(f),
            Step::Or(branches) => {
                f.write_str("[\"or\"")?;
                for branch in branches {
                    f.write_str(",[")?;
                    for (place, step) in branch.iter().enumerate() {
                        f.write_str(if place == 0 { "" } else { "," })?;
                        step.fmt(f)?;
                    }
                    f.write_str("]")?;
                }
                f.write_str("]")
            }
            Step::Retry => f.write_str("[\"retry\"]"),
        }
    }
}
