//! Tests of channels that are proved, so the contracts of the functions that they call can be met. Tests of each kind
//! of channel, without proofs, are in `tests/txc_chan_kind_tests`.
#![tactic(auto)]

#[cfg(test)]
mod by_hand;
