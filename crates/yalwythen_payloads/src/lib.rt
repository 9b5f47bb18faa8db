//! Payloads: values of any type, stored under keys that fit in the body of an item.
//!
//! A channel carries only numbers. To move another value, a thread puts it in and writes its key to a channel. The
//! thread that reads the item with that key opens the payload:
//!
//! ```text
//! let key = payloads.put(rt, bill)?;
//! session.run(rt, [write(BILLS, key)])?;
//! // in another thread, which has read `item`:
//! let bill = payloads.open(rt, &item);
//! ```
//!
//! A function that cannot return `AllocFailed` does not allocate. Only a function that takes `R: Wait` can block, and
//! only on the lock of the payloads.
#![tactic(auto)]

mod payload_store;
mod payloads;

pub use payload_store::PayloadStore;
pub use payloads::Payloads;
