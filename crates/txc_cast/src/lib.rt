//! [`Cast`]: a broadcast list that stores each item once, on a [`Shelf`], an append-only buffer that threads read
//! without a lock. Each reader has a position among the items, and its own list of put-backs. Each change can be
//! undone. A call that cannot return `NoMemory` or `AllocError` does not allocate, so no undo does. If a call fails,
//! the list is unchanged. Only `Cast::append` and `Append::append_to` can block.
#![tactic(auto)]

mod appending;
mod cast;
mod cursor;
mod fault;
mod shelf;
mod sight;

pub use appending::{Append, NonBlocking};
pub use cast::Cast;
pub use fault::CastFault;
pub use shelf::Shelf;
pub use sight::Sight;
