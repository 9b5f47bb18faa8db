//! What a transaction that must be retried waits for, and why nothing else lets it proceed.
//!
//! A seat registers at a wait queue for the interests of its transaction ([`interests_of`]). A seat that has committed
//! notifies the seats with an interest in what its acts changed ([`changed_by`]). The contract of [`no_lost_wakeup`]
//! says that no wake-up is missed: a proof that needs it calls that function, which does nothing at run time.
//!
//! No function of this crate allocates or blocks.
#![tactic(auto)]

mod interests;
mod law;

pub use interests::{Interests, changed_by, interests_of};
pub use law::no_lost_wakeup;
