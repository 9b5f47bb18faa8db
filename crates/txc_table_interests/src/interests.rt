// What a transaction waits for if it must be retried.
ghost use Rattle.std.specs.Prelude.{◌≡◌, slice_get, option_map};
ghost use Rattle.std.specs.List.{list_any};
ghost use Rattle.txc_table_interests.specs.Interests.{any_of_all, awaited, branch_interests, can_wait, changed_by};
ghost use Rattle.txc_table_interests.specs.Interests.{first_interests};
ghost use Rattle.txc_table_interests.specs.Interests.{first_awaited, few, has_bound, interests_of};
ghost use Rattle.std.specs.Option.{option_and_then};

use arrayvec::ArrayVec;
use txc_base::{Act, Kind, List, Op};
use txc_table_wait::{Change, Interest};
use txc_txn_check::{Checked, MAX_DECLARED, Step};

/// The changes that a transaction waits for.
pub type Interests = ArrayVec<Interest, MAX_DECLARED>;

/// Returns how an act changes its channel for the seats that wait.
pub fn changed_by(act: &Act) -> Change
    ensures { result ≡ changed_by act.now }
{
    match act {
        Act::Wrote(_) | Act::PutBack(..) => Change::Added,
        Act::Took(..) => Change::Removed,
        Act::Closed | Act::Begun(_) | Act::Cloned(..) => Change::Any,
    }
}

/// Returns what a transaction on channels of these kinds waits for if it must be retried. If only its first operation
/// can wait, it waits for what that operation awaits. If it begins with an alternative and only the first operation of
/// each branch can wait, it waits for what these await. Otherwise it waits for any change of any channel that it names.
pub fn interests_of(kinds: &[Kind], checked: &Checked) -> Interests
    ensures { result.items ≡ interests_of (slice_get kinds.now) checked.now.declared checked.now.steps }
{
    match first_interests(kinds, checked.steps()) {
        Some(interests) => interests,
        None => all_interests(checked),
    }
}

/// Returns what the first of these steps waits for. Returns `None` if a later step can wait too, or if the interest
/// cannot be determined.
fn first_interests(kinds: &[Kind], steps: &[Step]) -> Option<Interests>
    ensures { option_map (λ interests. interests.items) result ≡ first_interests (slice_get kinds.now) steps.now }
{
    let [first, rest @ ..] = steps else {
        return None;
    };
    if any_waits(kinds, rest) {
        return None;
    }
    match first {
        Step::Do(op) => {
            let mut interests = Interests::new();
            interests.push(awaited(kinds, op)?);
            Some(interests)
        }
        Step::Or(branches) => branch_interests(kinds, branches.as_slice()),
        Step::Retry => None,
    }
}

/// Returns what the first operations of these branches wait for. Returns `None` if another step can wait too, if an
/// interest cannot be determined, or if there are too many interests.
fn branch_interests(kinds: &[Kind], branches: &[List<Step>]) -> Option<Interests>
    ensures { option_map (λ interests. interests.items) result
        ≡ option_and_then few (branch_interests (slice_get kinds.now) branches.now) }
{
    let mut interests = Interests::new();
    for branch in branches {
        let interest = first_awaited(kinds, branch.as_slice())?;
        interests.try_push(interest).ok()?;
    }
    Some(interests)
}

/// Returns what the first operation of a branch waits for. Returns `None` if a later step can wait too, or if the
/// interest cannot be determined.
fn first_awaited(kinds: &[Kind], steps: &[Step]) -> Option<Interest>
    ensures { result ≡ first_awaited (slice_get kinds.now) steps.now }
{
    let [Step::Do(op), rest @ ..] = steps else {
        return None;
    };
    if any_waits(kinds, rest) {
        return None;
    }
    awaited(kinds, op)
}

/// Returns an interest in any change of each channel that a transaction names.
fn all_interests(checked: &Checked) -> Interests
    ensures { result.items ≡ any_of_all checked.now.declared }
{
    checked.show();
    let mut interests = Interests::new();
    for chan in checked.declared() {
        interests.push(Interest {
            chan: *chan,
            change: Change::Any,
        });
    }
    interests
}

/// Returns whether one of these steps can wait.
fn any_waits(kinds: &[Kind], steps: &[Step]) -> bool
    ensures { result ≡ list_any (can_wait (slice_get kinds.now)) steps.now }
{
    steps.iter().any(|step| can_wait(kinds, step))
}

/// Returns whether a step can wait.
fn can_wait(kinds: &[Kind], step: &Step) -> bool
    ensures { result ≡ can_wait (slice_get kinds.now) step.now }
{
    match step {
        Step::Do(op) => awaited(kinds, op).is_some(),
        Step::Or(_) | Step::Retry => true,
    }
}

/// Returns what an operation waits for. Returns `None` if it never waits.
fn awaited(kinds: &[Kind], op: &Op) -> Option<Interest>
    ensures { result ≡ awaited (slice_get kinds.now) op.now }
{
    let chan = op.chan();
    let change = match op {
        Op::Read { .. } | Op::Peek { .. } => Change::Added,
        Op::Write { .. } | Op::PutBack { .. } if has_bound(kinds, chan) => Change::Removed,
        _ => return None,
    };
    Some(Interest { chan, change })
}

/// Returns whether this channel exists and has a bound.
fn has_bound(kinds: &[Kind], chan: u16) -> bool
    ensures { result ≡ has_bound (slice_get kinds.now chan) }
{
    kinds
        .get(usize::from(chan))
        .is_some_and(|kind| kind.is_bounded())
}
