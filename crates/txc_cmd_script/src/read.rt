// Reads a script from its bytes.
ghost use Rattle.std.specs.Prelude.{◌≡◌, ◌≢◌, ◌≤◌, length, None, Ok, Err, IfOk, IfErr, map, slice_get, All};
ghost use Rattle.serde_json.specs.View.{view};
ghost use Rattle.txc_chan.specs.Limits.{first_fault};
ghost use Rattle.txc_txn_check.specs.Steps.{Fits};
ghost use Rattle.txc_cmd_script.specs.Reading.{transaction_in, transactions_in, seat_in, seats_in, with_seats};
ghost use Rattle.txc_cmd_script.specs.Reading.{script_from};
ghost use Rattle.txc_cmd_script.specs.Reading.{with_three_keys, script_of, script_in};
ghost use Rattle.txc_cmd_script.specs.Script.{max_channels};

use crate::channel::read_decls;
use crate::fault::ScriptFault;
use crate::script::Script;
use crate::steps::{StepFault, read_steps};
use crate::tree::{count_keys, elements, elements_at, number_at};
use serde_json::Value;
use std::alloc::Global;
use txc_base::{Kind, MAX_CHANNELS, MAX_SEATS};
use txc_chan::{Decl, kinds_of};
use txc_txn_check::Checked;

/// The maximum size of a script, in bytes.
pub const MAX_BYTES: usize = 1_048_576;

/// Reads a transaction on channels of these kinds: first all its steps, then the check.
fn read_transaction(
    alloc: Global,
    kinds: &[Kind],
    seat: usize,
    txn: usize,
    tree: &Value,
) -> Result<Checked, ScriptFault>
    ensures ok { IfOk result (λ checked. transaction_in kinds.now seat txn (view tree.now) ≡ Ok checked) }
    ensures fits { IfOk result (λ checked. Fits (slice_get kinds.now) checked.steps) }
    ensures err { IfErr result (λ e. e ≢ ScriptFault.NoMemory
        → transaction_in kinds.now seat txn (view tree.now) ≡ Err e) }
{
    let steps = match read_steps(alloc, tree) {
        Ok(steps) => steps,
        Err(StepFault::Shape) => return Err(ScriptFault::Shape),
        Err(StepFault::UnknownOp) => return Err(ScriptFault::UnknownOp { seat, txn }),
        Err(StepFault::NoMemory) => return Err(ScriptFault::NoMemory),
    };
    Checked::check(steps, kinds).map_err(|fault| ScriptFault::Txn { seat, txn, fault })
}

/// Reads the transactions of a seat, in order.
fn read_transactions(
    alloc: Global,
    kinds: &[Kind],
    seat: usize,
    trees: &[Value],
) -> Result<Vec<Checked>, ScriptFault>
    ensures ok { IfOk result (λ plans. transactions_in kinds.now seat 0 (map view trees.now) ≡ Ok plans.items) }
    ensures fits { IfOk result (λ plans. All (λ plan. Fits (slice_get kinds.now) plan.steps) plans.items) }
    ensures err { IfErr result (λ e. e ≢ ScriptFault.NoMemory
        → transactions_in kinds.now seat 0 (map view trees.now) ≡ Err e) }
{
    let mut transactions = Vec::with_capacity(alloc, trees.len())?;
    for (txn, tree) in trees.iter().enumerate() {
        let transaction = read_transaction(alloc, kinds, seat, txn, tree)?;
        transactions.push(transaction)?;
    }
    Ok(transactions)
}

/// Reads a seat, which is a list of transactions.
fn read_seat(
    alloc: Global,
    kinds: &[Kind],
    seat: usize,
    tree: &Value,
) -> Result<Vec<Checked>, ScriptFault>
    ensures ok { IfOk result (λ plans. seat_in kinds.now seat (view tree.now) ≡ Ok plans.items) }
    ensures fits { IfOk result (λ plans. All (λ plan. Fits (slice_get kinds.now) plan.steps) plans.items) }
    ensures err { IfErr result (λ e. e ≢ ScriptFault.NoMemory → seat_in kinds.now seat (view tree.now) ≡ Err e) }
{
    match elements(tree) {
        Some(trees) => read_transactions(alloc, kinds, seat, trees.as_slice()),
        None => Err(ScriptFault::Shape),
    }
}

/// Reads the seats, in order.
fn read_seats(
    alloc: Global,
    kinds: &[Kind],
    trees: &[Value],
) -> Result<Vec<Vec<Checked>>, ScriptFault>
    ensures ok { IfOk result (λ seats. seats_in kinds.now 0 (map view trees.now)
        ≡ Ok (map (λ seat. seat.items) seats.items)) }
    ensures all { IfOk result (λ seats. length seats.items ≡ length trees.now) }
    ensures fits { IfOk result (λ seats. All (All (λ plan. Fits (slice_get kinds.now) plan.steps))
        (map (λ seat. seat.items) seats.items)) }
    ensures err { IfErr result (λ e. e ≢ ScriptFault.NoMemory → seats_in kinds.now 0 (map view trees.now) ≡ Err e) }
{
    let mut seats = Vec::new(alloc);
    for (seat, tree) in trees.iter().enumerate() {
        let transactions = read_seat(alloc, kinds, seat, tree)?;
        seats.push(transactions)?;
    }
    Ok(seats)
}

/// Makes the script of these channels and seats. Tests the number of seats first.
fn read_with_seats(alloc: Global, decls: Vec<Decl>, seats: &[Value]) -> Result<Script, ScriptFault>
    requires few { length decls.items ≤ max_channels }
    requires made { first_fault decls.items ≡ None }
    ensures ok { IfOk result (λ script. with_seats (map view seats.now) decls.items ≡ Ok script) }
    ensures err { IfErr result (λ e. e ≢ ScriptFault.NoMemory → with_seats (map view seats.now) decls.items ≡ Err e) }
{
    if seats.is_empty() || seats.len() > MAX_SEATS {
        return Err(ScriptFault::BadSeatCount);
    }
    let kinds = kinds_of(alloc, decls.as_slice())?;
    let seats = read_seats(alloc, kinds.as_slice(), seats)?;
    Ok(Script { decls, seats })
}

/// Makes the script of these channels and seats, or returns its first fault.
fn read_lists(alloc: Global, channels: &[Value], seats: &[Value]) -> Result<Script, ScriptFault>
    ensures ok { IfOk result (λ script. script_from (map view channels.now) (map view seats.now) ≡ Ok script) }
    ensures err { IfErr result (λ e. e ≢ ScriptFault.NoMemory
        → script_from (map view channels.now) (map view seats.now) ≡ Err e) }
{
    if channels.len() > MAX_CHANNELS {
        return Err(ScriptFault::TooManyChannels);
    }
    let decls = read_decls(alloc, channels)?;
    read_with_seats(alloc, decls, seats)
}

/// Reads a script from a tree of this version, or returns its first fault.
fn read_body(alloc: Global, tree: &Value) -> Result<Script, ScriptFault>
    ensures ok { IfOk result (λ script. with_three_keys (view tree.now) ≡ Ok script) }
    ensures err { IfErr result (λ e. e ≢ ScriptFault.NoMemory → with_three_keys (view tree.now) ≡ Err e) }
{
    if count_keys(tree) != 3 {
        return Err(ScriptFault::Shape);
    }
    let Some(channels) = elements_at(tree, "channels") else {
        return Err(ScriptFault::Shape);
    };
    let Some(seats) = elements_at(tree, "seats") else {
        return Err(ScriptFault::Shape);
    };
    read_lists(alloc, channels.as_slice(), seats.as_slice())
}

/// Reads a script from a tree, or returns its first fault.
fn read_tree(alloc: Global, tree: &Value) -> Result<Script, ScriptFault>
    ensures ok { IfOk result (λ script. script_of (view tree.now) ≡ Ok script) }
    ensures err { IfErr result (λ e. e ≢ ScriptFault.NoMemory → script_of (view tree.now) ≡ Err e) }
{
    match number_at(tree, "version") {
        None => Err(ScriptFault::Shape),
        Some(1) => read_body(alloc, tree),
        Some(_) => Err(ScriptFault::Version),
    }
}

/// Reads a script from its text.
///
/// Fails with the first fault, in this order:
///
/// - `TooLarge`: there are more than 1,048,576 bytes.
/// - `NotJson`: the bytes are not a JSON text.
/// - `Shape`: the tree is not an object with a whole number at `version`.
/// - `Version`: that number is not 1.
/// - `Shape`: the keys are not exactly `version`, `channels` and `seats`, or one of the last two is not a list.
/// - `TooManyChannels`: there are more than 8 channels.
/// - For each channel in turn: `Shape` if its keys do not match its kind, `BoundTooLarge` over 65,535, `TooManyReaders`
///   over 64.
/// - `BadSeatCount`: there is no seat, or there are more than 16.
/// - For each seat in turn: `Shape` if it is not a list. For each of its transactions in turn: `Shape` or `UnknownOp`
///   for the first step that cannot be read, including steps in branches. An `"or"` step with a branch that is not a
///   list is `Shape` before its branches are read. Then `Txn` for the fault of `Checked::check`.
///
/// Any allocation can fail with `NoMemory`.
#[tactic(auto, using(crate::proofs::TreeLemmas::text_rules), unfolding(crate::specs::Reading::script_in))]
pub fn read_script(alloc: Global, bytes: &[u8]) -> Result<Script, ScriptFault>
    ensures ok { IfOk result (λ script. script_in bytes.now ≡ Ok script) }
    ensures err { IfErr result (λ e. e ≢ ScriptFault.NoMemory → script_in bytes.now ≡ Err e) }
{
    if bytes.len() > MAX_BYTES {
        return Err(ScriptFault::TooLarge);
    }
    match Value::from_slice(alloc, bytes) {
        Ok(tree) => read_tree(alloc, &tree),
        Err(error) if error.is_memory() => Err(ScriptFault::NoMemory),
        Err(_) => Err(ScriptFault::NotJson),
    }
}
