//! Tests of the lock by threads. They show what no clause says: that calls return, and that no write is lost. Besides
//! they show how a guard is made of a lock and a token.
#![tactic(auto)]

mod counter;
#[cfg(test)]
mod lock;

pub use counter::{Counter, Guard, HasStep};
