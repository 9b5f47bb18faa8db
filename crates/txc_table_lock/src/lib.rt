//! A lock whose contract describes its value. A [`Lock`] is made with a label. Whenever the lock is free, its value
//! fits the label, by a relation that the user defines ([`LockInvariant`]). A contract reads the label off the lock.
//! About the value of a `std::sync::Mutex`, a contract knows only its type.
//!
//! A function that cannot return `AllocError` does not allocate. A function without a `Wait` handle does not block.
#![tactic(auto)]

mod lock;
mod rule;
mod steps;
mod waiting;
mod words;

pub use lock::{Lock, LockToken};
pub use rule::{LockInvariant, LockRule};
