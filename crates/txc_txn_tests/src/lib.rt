//! A test of a transaction on two borrowed channels. It is proved, so the traits of held channels can be implemented by
//! another crate. Tests on a plain list of channels, without proofs, are in `tests/txc_txn_plain_tests`.
#![tactic(auto)]

#[cfg(test)]
mod borrowed;
