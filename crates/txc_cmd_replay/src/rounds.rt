// The replay of a script, in rounds.
ghost use Rattle.std.specs.Prelude.{◌≡◌, ◌≤◌, false, map, length, slice_get, All, IfOk, IfErr};
ghost use Rattle.txc_txn.specs.Plain.{chan_in};
ghost use Rattle.txc_txn.specs.Steps.{Fits};
ghost use Rattle.txc_cmd_report.specs.Outcome.{IsComplete, outcome_of};
ghost use Rattle.txc_txn.specs.Opening.{opening_map};
ghost use Rattle.txc_cmd_replay.specs.Rounds.{untried, last_round, round_from, round_to, rounds};
ghost use Rattle.txc_chan.specs.Decls.{kinds_in};
ghost use Rattle.txc_cmd_script.specs.Script.{Script, max_seats};

use crate::channels::Channels;
use crate::seat_progress::SeatProgress;
use std::alloc::{AllocError, Global};
use txc_base::{List, Stop};
use txc_chan::{Account, Append};
use txc_cmd_report::Outcome;
use txc_cmd_script::Script;
use txc_txn::{Checked, Report};

/// Makes the progress of each seat before its first try. Fails if allocation fails.
pub fn fresh_progress(
    alloc: Global,
    seats: &[Vec<Checked>],
) -> Result<Vec<SeatProgress>, AllocError>
    ensures ok { IfOk result (λ progress. progress.items ≡ map (λ seat. untried) seats.now) }
{
    let mut progress = Vec::new(alloc);
    for seat in seats {
        progress.push(SeatProgress::fresh(alloc, seat.len())?)?;
    }
    Ok(progress)
}

/// Runs a round: the seats have their turns in the order of their numbers. Returns whether a transaction was committed.
/// Fails if allocation fails.
fn run_round<R: Append>(
    rt: &R,
    alloc: Global,
    channels: &mut Channels,
    seats: &[Vec<Checked>],
    progress: &mut [SeatProgress],
) -> Result<bool, AllocError>
    requires fits { All (All (λ plan. Fits (slice_get channels.old.kinds) plan.steps))
        (map (λ seat. seat.items) seats.now) }
    requires seated { length seats.now ≤ max_seats }
    requires each { length progress.old ≡ length seats.now }
    ensures kinds { channels.new.kinds ≡ channels.old.kinds }
    ensures ok { IfOk result (λ kept. round_to (chan_in channels.new.held) progress.new kept
        ≡ round_from 0 (map (λ seat. seat.items) seats.now) progress.old (chan_in channels.old.held)) }
{
    let mut kept = false;
    for seat in 0..seats.len() {
        let plans = seats[seat].as_slice();
        kept |= progress[seat].turn(rt, alloc, channels, seat as u16, plans)?;
    }
    Ok(kept)
}

/// Runs the rounds of a script on these channels, which must be as the script declares them, up to the first round in
/// which nothing was committed. Returns the progress of each seat. Fails if allocation fails.
fn run_rounds<R: Append>(
    rt: &R,
    alloc: Global,
    channels: &mut Channels,
    script: &Script,
) -> Result<Vec<SeatProgress>, AllocError>
    requires kinds { channels.old.kinds ≡ kinds_in script.now.decls }
    requires opening { chan_in channels.old.held ≡ opening_map script.now.decls }
    ensures kinds { channels.new.kinds ≡ channels.old.kinds }
    ensures ok { IfOk result (λ progress. round_to (chan_in channels.new.held) progress.items false
        ≡ last_round script.now) }
{
    script.show();
    let seats = script.seats();
    let mut progress = fresh_progress(alloc, seats)?;
    while run_round(rt, alloc, channels, seats, progress.as_mut_slice())? {}
    Ok(progress)
}

/// Makes the outcome with these accounts, and with the receipts and the ends of these seats. Fails if allocation fails.
fn outcome_with(
    alloc: Global,
    accounts: Vec<Account>,
    progress: Vec<SeatProgress>,
) -> Result<Outcome, AllocError>
    ensures accounts { IfOk result (λ outcome. outcome.report.accounts ≡ accounts.items) }
    ensures receipts { IfOk result (λ outcome. outcome.report.receipts ≡ map (λ s. s.receipts) progress.items) }
    ensures ends { IfOk result (λ outcome. outcome.ends ≡ map (λ s. s.end) progress.items) }
    ensures outcome { IfOk result (λ outcome. IsComplete outcome) }
{
    let mut receipts = Vec::new(alloc);
    let mut ends = Vec::new(alloc);
    for seat_progress in progress {
        ends.push(seat_progress.end())?;
        receipts.push(List::from_vec(seat_progress.into_receipts()))?;
    }
    Ok(Outcome {
        report: Report {
            accounts: List::from_vec(accounts),
            receipts: List::from_vec(receipts),
        },
        ends: List::from_vec(ends),
    })
}

/// Shows to a proof that the last round of every script commits nothing, so that no later round would commit anything.
/// Does nothing at run time.
pub fn show_last_round()
    ensures { (script : Script) → (last_round script).kept ≡ false }
{}

/// Replays a script in one thread and returns its outcome. In each round the seats, in the order of their numbers, try
/// their next transactions once. The first round in which nothing is committed is the last. Fails only with `NoMemory`,
/// if allocation fails.
pub fn replay<R: Append>(rt: &R, alloc: Global, script: &Script) -> Result<Outcome, Stop>
    ensures ok { IfOk result (λ outcome. outcome_of outcome ≡ rounds script.now) }
    ensures outcome { IfOk result (λ outcome. IsComplete outcome) }
    ensures err { IfErr result (λ stop. stop ≡ Stop.NoMemory) }
{
    script.show();
    let mut channels = Channels::open(alloc, script)?;
    let progress = run_rounds(rt, alloc, &mut channels, script)?;
    let accounts = channels.into_accounts(alloc)?;
    Ok(outcome_with(alloc, accounts, progress)?)
}
