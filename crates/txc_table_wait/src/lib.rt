//! A wait queue: seats wait at it until a commit changes a channel as they need. The wait queue does not know what a
//! channel is: to a wait queue, a channel is a number.
//!
//! A seat whose transaction must be retried registers the changes that it waits for ([`WaitQueue::register`]) and tries
//! once more. If that try must be retried too, the seat waits ([`WaitQueue::wait`], or [`WaitQueue::wait_until`] a
//! time). A seat that has committed releases its locks. Then it takes from the wait queue the seats that wait for each
//! change that it made ([`WaitQueue::take_registered`]), and notifies them ([`WaitQueue::notify`]). If no seat waits,
//! this reads a word or two and writes nothing. Code that does not notify the seats that it took does not compile
//! ([`Seats`]). A seat that will not try again calls [`WaitQueue::leave`]. In this order no commit is missed: a commit
//! that comes after the second try finds the seat.
//!
//! Both waits return whether the seat was notified, so that another try can succeed. [`WaitQueue::wait`] returns
//! `false` only after a stall: each seat waits with no deadline or has left, so no seat can proceed by itself.
//! [`WaitQueue::wait_until`] returns `false` only if the time has passed or the clock cannot be read. Until the time
//! has passed, the seat counts as running. Then it tries again, waits or leaves, and the others stall if it was the
//! last.
//!
//! Only [`WaitQueue::new`] allocates. Only a function that takes `R: Wait` can block.
#![tactic(auto)]

mod change;
mod interested_seats;
mod parker;
mod seats;
mod wait_queue;
mod waiters;

pub use change::{Change, Interest};
pub use seats::Seats;
pub use wait_queue::WaitQueue;
