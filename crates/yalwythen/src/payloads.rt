//! Values of any type, whose keys a channel carries, and channels for values of one type.
//!
//! A function that cannot return an error does not allocate. A function without a `Wait` handle does not block.
//! `Payloads` blocks only on its lock.
pub use yalwythen_payloads::{PayloadStore, Payloads};
pub use yalwythen_work::{ReadOutcome, SendError, SendOutcome, TypedChannel};
