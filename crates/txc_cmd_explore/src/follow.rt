// A script, run in an order of its seats.
ghost use Rattle.std.specs.Prelude.{◌≡◌, ◌<◌, ◌≤◌, true, length, map, slice_get, All, IfOk};
ghost use Rattle.txc_chan.specs.Decls.{kinds_in};
ghost use Rattle.txc_txn.specs.Opening.{opening_map};
ghost use Rattle.txc_txn.specs.Plain.{chan_in};
ghost use Rattle.txc_txn.specs.Steps.{Fits};
ghost use Rattle.txc_cmd_report.specs.Text.{is_stopped};
ghost use Rattle.txc_cmd_replay.specs.Rounds.{round_to};
ghost use Rattle.txc_cmd_script.specs.Script.{max_seats};
ghost use Rattle.txc_cmd_explore.specs.Ends.{state_of, shapes_from, shape_of};
ghost use Rattle.txc_cmd_explore.specs.Moves.{after_move, can_move, reached, turn_in};
ghost use Rattle.txc_cmd_explore.specs.Followed.{IsReached, IsFollowed};

use crate::state::{Shape, State};
use std::alloc::{AllocError, Global};
use txc_base::{Item, List};
use txc_chan::Append;
use txc_cmd_replay::{Channels, SeatProgress, fresh_progress};
use txc_cmd_report::SeatEnd;
use txc_cmd_script::Script;
use txc_txn::Checked;

/// What a script has come to.
#[derive(Drop)]
pub(crate) struct Reached {
    pub(crate) channels: Channels,
    pub(crate) progress: Vec<SeatProgress>,
}

/// Returns whether a seat was stopped.
fn has_stopped(end: SeatEnd) -> bool
    ensures { result ≡ is_stopped end }
{
    matches!(end, SeatEnd::Stopped(_))
}

/// Lets a seat have a turn. Returns whether it was a move: whether it committed, or stopped the seat. Fails if
/// allocation fails.
pub(crate) fn step<R: Append>(
    rt: &R,
    alloc: Global,
    channels: &mut Channels,
    seats: &[Vec<Checked>],
    progress: &mut [SeatProgress],
    seat: usize,
) -> Result<bool, AllocError>
    requires fits { All (All (λ plan. Fits (slice_get channels.old.kinds) plan.steps))
        (map (λ seat. seat.items) seats.now) }
    requires seated { length seats.now ≤ max_seats }
    requires each { length progress.old ≡ length seats.now }
    requires there { seat < length seats.now }
    ensures kinds { channels.new.kinds ≡ channels.old.kinds }
    ensures ok { IfOk result (λ moved. round_to (chan_in channels.new.held) progress.new moved
        ≡ after_move (map (λ seat. seat.items) seats.now) seat
        (round_to (chan_in channels.old.held) progress.old true)) }
{
    let plans = seats[seat].as_slice();
    let stopped = has_stopped(progress[seat].end());
    let kept = progress[seat].turn(rt, alloc, channels, seat as u16, plans)?;
    let stops = has_stopped(progress[seat].end());
    Ok(kept || (stops && !stopped))
}

/// Makes open and empty channels, as a script declares them. Fails if allocation fails.
fn open(alloc: Global, script: &Script) -> Result<Channels, AllocError>
    ensures opening { IfOk result (λ channels. chan_in channels.held ≡ opening_map script.now.decls) }
    ensures kinds { IfOk result (λ channels. channels.kinds ≡ kinds_in script.now.decls) }
{
    match Channels::open(alloc, script) {
        Ok(channels) => Ok(channels),
        Err(_) => Err(AllocError),
    }
}

/// Runs a script in an order of its seats. Returns `None` if one of their turns is no move. Fails if allocation fails.
pub(crate) fn follow<R: Append>(
    rt: &R,
    alloc: Global,
    script: &Script,
    order: &[u16],
) -> Result<Option<Reached>, AllocError>
    ensures { IfOk result (IsFollowed script.now order.now) }
{
    script.show();
    let seats = script.seats();
    let mut channels = open(alloc, script)?;
    let mut progress = fresh_progress(alloc, seats)?;
    for number in order {
        let seat = *number as usize;
        if seat >= seats.len() {
            return Ok(None);
        }
        if !step(
            rt,
            alloc,
            &mut channels,
            seats,
            progress.as_mut_slice(),
            seat,
        )? {
            return Ok(None);
        }
    }
    Ok(Some(Reached { channels, progress }))
}

/// Lets a seat have one turn more after an order of moves. Returns whether it was a move, and how it ended. Fails if
/// allocation fails.
pub(crate) fn try_turn<R: Append>(
    rt: &R,
    alloc: Global,
    script: &Script,
    order: &[u16],
    seat: usize,
) -> Result<(bool, SeatEnd), AllocError>
    requires kept { (reached script.now order.now).kept ≡ true }
    requires there { seat < length script.now.seats }
    ensures moved { IfOk result (λ t. t.0 ≡ can_move script.now.seats seat (reached script.now order.now)) }
    ensures ended { IfOk result (λ t. t.1
        ≡ (turn_in script.now.seats seat (reached script.now order.now)).seat_progress.end) }
{
    script.show();
    match follow(rt, alloc, script, order)? {
        Some(mut at) => {
            let progress = at.progress.as_mut_slice();
            let moved = step(rt, alloc, &mut at.channels, script.seats(), progress, seat)?;
            Ok((moved, at.progress[seat].end()))
        }
        // It never comes to this.
        None => Err(AllocError),
    }
}

/// Returns how many items these lists have. Fails if allocation fails.
fn lengths(alloc: Global, lists: &[List<Item>]) -> Result<Vec<usize>, AllocError>
    ensures { IfOk result (λ left. left.items ≡ map (λ list. length list) lists.now) }
{
    let mut left = Vec::new(alloc);
    for list in lists {
        left.push(list.len())?;
    }
    Ok(left)
}

/// Returns what is seen of a channel, which must exist. Fails if allocation fails.
fn shape(alloc: Global, channels: &Channels, chan: u16) -> Result<Shape, AllocError>
    requires { chan < length channels.now.kinds }
    ensures { IfOk result (λ shape. shape ≡ shape_of (chan_in channels.now.held chan).channel) }
{
    let summary = channels.summary(chan).map_err(|_| AllocError)?;
    let left = lengths(alloc, summary.remaining.as_slice())?;
    Ok(Shape {
        closed: summary.closed,
        left: List::from_vec(left),
    })
}

/// Returns what is seen of the declared channels. Fails if allocation fails.
fn shapes(alloc: Global, script: &Script, channels: &Channels) -> Result<Vec<Shape>, AllocError>
    requires { channels.now.kinds ≡ kinds_in script.now.decls }
    ensures { IfOk result (λ shapes. shapes.items ≡ shapes_from 0 script.now.decls (chan_in channels.now.held)) }
{
    script.show();
    let mut shapes = Vec::new(alloc);
    for chan in 0..script.decls().len() {
        shapes.push(shape(alloc, channels, chan as u16)?)?;
    }
    Ok(shapes)
}

/// Returns how many transactions each seat has committed. Fails if allocation fails.
fn commits(alloc: Global, progress: &[SeatProgress]) -> Result<Vec<usize>, AllocError>
    ensures { IfOk result (λ commits. commits.items ≡ map (λ s. length s.receipts) progress.now) }
{
    let mut commits = Vec::new(alloc);
    for seat in progress {
        commits.push(seat.kept())?;
    }
    Ok(commits)
}

/// Returns how the last try of each seat ended. Fails if allocation fails.
fn stops(alloc: Global, progress: &[SeatProgress]) -> Result<Vec<SeatEnd>, AllocError>
    ensures { IfOk result (λ stops. stops.items ≡ map (λ s. s.end) progress.now) }
{
    let mut stops = Vec::new(alloc);
    for seat in progress {
        stops.push(seat.end())?;
    }
    Ok(stops)
}

/// Returns what is seen of a script there. Fails if allocation fails.
pub(crate) fn state_at(alloc: Global, script: &Script, at: &Reached) -> Result<State, AllocError>
    requires { at.now.channels.kinds ≡ kinds_in script.now.decls }
    ensures { IfOk result (λ state. state ≡ state_of script.now.decls
        (round_to (chan_in at.now.channels.held) at.now.progress.items true)) }
{
    let shapes = shapes(alloc, script, &at.channels)?;
    let commits = commits(alloc, at.progress.as_slice())?;
    let stops = stops(alloc, at.progress.as_slice())?;
    Ok(State {
        shapes: List::from_vec(shapes),
        commits: List::from_vec(commits),
        stops: List::from_vec(stops),
    })
}
