// The search over the orders of a script.
ghost use Rattle.std.specs.Prelude.{◌≡◌, ◌<◌, true, false, [], ◌∷◌, ◌++◌, length, map, IfOk, OnOk};
ghost use Rattle.txc_base.specs.declared.limits.TheConstants.{GREATEST_NUMBER};
ghost use Rattle.txc_cmd_explore.specs.Ends.{IsAmong, IsExplored, state_of};
ghost use Rattle.txc_cmd_explore.specs.Hash.{IsIndexed};
ghost use Rattle.txc_cmd_explore.specs.Moves.{reached};
ghost use Rattle.txc_cmd_explore.specs.Search.{IsSearch};
ghost use Rattle.txc_cmd_explore.specs.Followed.{HaveTried};

use crate::follow::{follow, state_at, try_turn};
use crate::found_end::FoundEnd;
use crate::seen::Seen;
use crate::state::State;
use std::alloc::{AllocError, Global};
use txc_base::List;
use txc_chan::Append;
use txc_cmd_report::SeatEnd;
use txc_cmd_script::Script;

/// The longest order that is visited.
const LONGEST: usize = 1_000_000;

/// Why a script was not explored.
#[derive(Debug, Clone, Copy, PartialEq, Eq)]
pub enum ExploreFault {
    /// There are more orders to visit than was allowed. Nothing is known of its ends.
    TooMany,
    /// Allocation failed.
    NoMemory,
}

impl From<AllocError> for ExploreFault {
    fn from(_error: AllocError) -> ExploreFault {
        ExploreFault::NoMemory
    }
}

/// What was seen, the orders that wait to be visited, and the ends that were found.
#[derive(Drop)]
struct Search {
    seen: Seen,
    waiting: Vec<List<u16>>,
    found: Vec<FoundEnd>,
}

/// How the next turns of all seats ended, and whether one of them was a move.
#[derive(Drop)]
struct NextTurns {
    ends: Vec<SeatEnd>,
    any: bool,
}

/// Makes the order of one more turn. Fails if allocation fails.
fn longer(alloc: Global, order: &[u16], seat: u16) -> Result<List<u16>, AllocError>
    ensures { IfOk result (λ longer. longer ≡ order.now ++ seat ∷ []) }
{
    let mut seats = Vec::from_slice(alloc, order)?;
    seats.push(seat)?;
    Ok(List::from_vec(seats))
}

/// Lets each seat try a turn after an order of moves, and adds the orders of those that move to what waits. Fails if
/// allocation fails.
fn try_turns<R: Append>(
    rt: &R,
    alloc: Global,
    script: &Script,
    order: &[u16],
    waiting: &mut Vec<List<u16>>,
) -> Result<NextTurns, AllocError>
    requires { (reached script.now order.now).kept ≡ true }
    ensures { IfOk result (λ next. HaveTried script.now order.now (length script.now.seats) waiting.old.items
        waiting.new.items next.ends.items next.any) }
{
    script.show();
    let mut ends = Vec::new(alloc);
    let mut any = false;
    for seat in 0..script.seats().len() {
        let (moved, end) = try_turn(rt, alloc, script, order, seat)?;
        ends.push(end)?;
        if moved {
            waiting.push(longer(alloc, order, seat as u16)?)?;
            any = true;
        }
    }
    Ok(NextTurns { ends, any })
}

/// Visits an order of moves that leads to a new state. Fails if allocation fails.
fn expand<R: Append>(
    rt: &R,
    alloc: Global,
    script: &Script,
    order: List<u16>,
    state: State,
    search: &mut Search,
) -> Result<(), AllocError>
    requires kept { (reached script.now order).kept ≡ true }
    requires state { state ≡ state_of script.now.decls (reached script.now order) }
    requires short { length order < GREATEST_NUMBER }
    requires search { IsSearch script.now search.old.seen.states.items (search.old.waiting.items ++ order ∷ [])
        search.old.found.items }
    requires new { IsAmong search.old.seen.states.items state → ⊥ }
    requires indexed { IsIndexed search.old.seen.states.items (map (λ b. b.items) search.old.seen.buckets.items) }
    ensures search { OnOk result (IsSearch script.now search.new.seen.states.items search.new.waiting.items
        search.new.found.items) }
    ensures indexed { OnOk result (IsIndexed search.new.seen.states.items
        (map (λ b. b.items) search.new.seen.buckets.items)) }
{
    let next = try_turns(rt, alloc, script, order.as_slice(), &mut search.waiting)?;
    search.seen.add(state)?;
    if !next.any {
        search.found.push(FoundEnd {
            order,
            ends: List::from_vec(next.ends),
        })?;
    }
    Ok(())
}

/// Visits an order that waited. Fails if allocation fails.
fn visit<R: Append>(
    rt: &R,
    alloc: Global,
    script: &Script,
    order: List<u16>,
    search: &mut Search,
) -> Result<(), AllocError>
    requires short { length order < GREATEST_NUMBER }
    requires search { IsSearch script.now search.old.seen.states.items (search.old.waiting.items ++ order ∷ [])
        search.old.found.items }
    requires indexed { IsIndexed search.old.seen.states.items (map (λ b. b.items) search.old.seen.buckets.items) }
    ensures search { OnOk result (IsSearch script.now search.new.seen.states.items search.new.waiting.items
        search.new.found.items) }
    ensures indexed { OnOk result (IsIndexed search.new.seen.states.items
        (map (λ b. b.items) search.new.seen.buckets.items)) }
{
    match follow(rt, alloc, script, order.as_slice())? {
        Some(at) => {
            let state = state_at(alloc, script, &at)?;
            drop(at);
            if search.seen.has(&state) {
                return Ok(());
            }
            expand(rt, alloc, script, order, state, search)
        }
        None => Ok(()),
    }
}

/// Makes a search before its first visit. Fails if allocation fails.
fn begin(alloc: Global, script: &Script) -> Result<Search, AllocError>
    ensures search { IfOk result (λ search. IsSearch script.now search.seen.states.items search.waiting.items
        search.found.items) }
    ensures indexed { IfOk result (λ search. IsIndexed search.seen.states.items
        (map (λ b. b.items) search.seen.buckets.items)) }
{
    let mut waiting = Vec::new(alloc);
    waiting.push(List::from_vec(Vec::new(alloc)))?;
    Ok(Search {
        seen: Seen::new(alloc)?,
        waiting,
        found: Vec::new(alloc),
    })
}

/// Explores all orders in which the seats of a script can commit or stop, one transaction at a time, and returns the
/// ends that they lead to, each with an order that leads there. Visits no more than `most` orders, and fails with
/// `TooMany` if that is too few.
pub fn explore<R: Append>(
    rt: &R,
    alloc: Global,
    script: &Script,
    most: u32,
) -> Result<Vec<FoundEnd>, ExploreFault>
    ensures { IfOk result (λ found. IsExplored script.now found.items) }
{
    script.show();
    let mut search = begin(alloc, script)?;
    for _ in 0..most {
        match search.waiting.pop() {
            Some(order) => {
                if order.len() > LONGEST {
                    return Err(ExploreFault::TooMany);
                }
                visit(rt, alloc, script, order, &mut search)?;
            }
            None => return Ok(search.found),
        }
    }
    Err(ExploreFault::TooMany)
}
