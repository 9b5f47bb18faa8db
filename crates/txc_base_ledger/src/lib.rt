//! Ledgers for proofs: a [`Ledger`] has a total, and each [`Share`] of it has some of its parts and an amount that
//! counts in the total. The ledger that a share is of is a value, its `name`, which a contract reads. A share of all
//! parts counts all of the total, and a share without a part counts nothing. Ledgers and shares have no bytes. Their
//! calls do nothing at run time: they return no error, do not block and do not allocate.
#![tactic(auto)]

mod changes;
mod ledger;
mod share;

pub use ledger::Ledger;
pub use share::Share;
