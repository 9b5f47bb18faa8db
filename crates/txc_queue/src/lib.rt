//! Two queues of items, first in first out, with put-back: `PairQueue`, and `BoundQueue`, which has a bound. Each
//! change can be undone. A call that cannot return a `QueueFault` does not allocate, so no undo does. If a call fails,
//! the queue is unchanged. No call blocks.
#![tactic(auto)]

mod bound_queue;
mod pair_queue;
mod queue_fault;

pub use bound_queue::BoundQueue;
pub use pair_queue::PairQueue;
pub use queue_fault::QueueFault;
