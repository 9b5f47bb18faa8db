// The states that a search has seen.
ghost use Rattle.std.specs.Prelude.{◌≡◌, ◌<◌, ℕ, [], ◌∷◌, ◌++◌, IsTrue, IfOk, OnOk, Some, fold, length};
ghost use Rattle.std.specs.Prelude.{map, slice_get, slice_index_or, slice_set};
ghost use Rattle.txc_cmd_explore.specs.Hash.{IsIndexed, bucket_count, bucket_in, mixed, mixed_end, mixed_shape};
ghost use Rattle.txc_cmd_explore.specs.Ends.{IsAmong};

use crate::state::{Shape, State, are_same};
use std::alloc::{AllocError, Global};
use txc_cmd_report::SeatEnd;

/// How many lists the states are spread over.
const BUCKETS: usize = 65536;

/// The states that a search has seen. They are also listed by a number that each has, so that few are compared.
#[derive(Drop)]
pub(crate) struct Seen {
    pub(crate) states: Vec<State>,
    pub(crate) buckets: Vec<Vec<usize>>,
}

/// Mixes a number into a hash.
fn mix(hash: u64, number: u64) -> u64
    ensures { result ≡ mixed hash number }
{
    hash.wrapping_add(number)
        .wrapping_mul(0x9E37_79B9_7F4A_7C15)
}

/// Mixes numbers into a hash.
fn mix_all(hash: u64, numbers: &[usize]) -> u64
    ensures { result ≡ fold mixed hash numbers.now }
{
    numbers
        .iter()
        .fold(hash, |hash, number| mix(hash, *number as u64))
}

/// Mixes what is seen of a channel into a hash.
fn mix_shape(hash: u64, shape: &Shape) -> u64
    ensures { result ≡ mixed_shape hash shape.now }
{
    let flag = if shape.closed { 1 } else { 2 };
    mix_all(mix(hash, flag), shape.left.as_slice())
}

/// Mixes the end of a seat into a hash.
fn mix_end(hash: u64, end: &SeatEnd) -> u64
    ensures { result ≡ mixed_end hash end.now }
{
    match end {
        SeatEnd::Finished => mix(hash, 3),
        SeatEnd::Stalled(_) | SeatEnd::Stopped(_) => mix(hash, 4),
    }
}

/// Returns the number of the list that a state is in.
fn bucket_of(state: &State) -> usize
    ensures value { result ≡ bucket_in state.now }
    ensures bound { result < bucket_count }
{
    let shapes = state.shapes.as_slice();
    let hash = shapes.iter().fold(1, |hash, shape| mix_shape(hash, shape));
    let hash = mix_all(hash, state.commits.as_slice());
    let stops = state.stops.as_slice();
    let hash = stops.iter().fold(hash, |hash, end| mix_end(hash, end));
    (hash >> 40) as usize % BUCKETS
}

/// Adds a number at the end of a list. Fails if allocation fails.
fn push_number(
    buckets: &mut Vec<Vec<usize>>,
    bucket: usize,
    number: usize,
) -> Result<(), AllocError>
    requires { bucket < length buckets.old.items }
    ensures { OnOk result (map (λ b. b.items) buckets.new.items
        ≡ slice_set (map (λ b. b.items) buckets.old.items) bucket
        (slice_index_or (map (λ b. b.items) buckets.old.items) bucket [] ++ number ∷ [])) }
{
    buckets[bucket].push(number)?;
    Ok(())
}

impl Seen {
    /// Makes a list of no states. Fails if allocation fails.
    pub(crate) fn new(alloc: Global) -> Result<Seen, AllocError>
        ensures empty { IfOk result (λ seen. seen.states.items ≡ []) }
        ensures indexed { IfOk result (λ seen. IsIndexed seen.states.items (map (λ b. b.items) seen.buckets.items)) }
    {
        let mut buckets = Vec::with_capacity(alloc, BUCKETS)?;
        while buckets.len() < BUCKETS {
            buckets.push(Vec::new(alloc))?;
        }
        Ok(Seen {
            states: Vec::new(alloc),
            buckets,
        })
    }

    /// Returns whether the state with this number is this one.
    fn is_at(&self, number: usize, state: &State) -> bool
        ensures seen { IsTrue result → IsAmong self.now.states.items state.now }
        ensures known { slice_get self.now.states.items number ≡ Some state.now → IsTrue result }
    {
        if number < self.states.len() {
            are_same(&self.states[number], state)
        } else {
            false
        }
    }

    /// Returns whether one of these states is this one.
    fn is_one_of(&self, numbers: &[usize], state: &State) -> bool
        ensures seen { IsTrue result → IsAmong self.now.states.items state.now }
        ensures known { (number : ℕ) → IsAmong numbers.now number
            → slice_get self.now.states.items number ≡ Some state.now → IsTrue result }
    {
        for number in numbers {
            if self.is_at(*number, state) {
                return true;
            }
        }
        false
    }

    /// Returns whether the state was seen.
    pub(crate) fn has(&self, state: &State) -> bool
        requires { IsIndexed self.now.states.items (map (λ b. b.items) self.now.buckets.items) }
        ensures seen { IsTrue result → IsAmong self.now.states.items state.now }
        ensures known { IsAmong self.now.states.items state.now → IsTrue result }
    {
        let numbers = &self.buckets[bucket_of(state)];
        self.is_one_of(numbers.as_slice(), state)
    }

    /// Adds a state. Fails if allocation fails.
    pub(crate) fn add(&mut self, state: State) -> Result<(), AllocError>
        requires { IsIndexed self.old.states.items (map (λ b. b.items) self.old.buckets.items) }
        ensures more { OnOk result (self.new.states.items ≡ self.old.states.items ++ state ∷ []) }
        ensures indexed { OnOk result (IsIndexed self.new.states.items (map (λ b. b.items) self.new.buckets.items)) }
    {
        push_number(&mut self.buckets, bucket_of(&state), self.states.len())?;
        self.states.push(state)?;
        Ok(())
    }
}
