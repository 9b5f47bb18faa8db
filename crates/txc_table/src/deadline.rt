// How long a seat waits between two tries.
use std::sync::Wait;
use std::time::{Clock, Instant};
use txc_table_wait::WaitQueue;

/// How long a seat waits.
pub(crate) trait Deadline {
    /// Waits at a wait queue for this seat, which is registered there. Returns whether the seat was notified, so that
    /// another try can succeed. The kind of deadline determines what else ends the wait.
    fn wait(&self, wait_queue: &WaitQueue, seat: u16) -> bool;
}

/// A wait without a deadline. Without a notification, only a stall ends it.
#[derive(Drop)]
pub(crate) struct NoDeadline<'a, R> {
    pub(crate) rt: &'a R,
}

impl<R: Wait> Deadline for NoDeadline<'_, R> {
    fn wait(&self, wait_queue: &WaitQueue, seat: u16) -> bool {
        wait_queue.wait(self.rt, seat)
    }
}

/// A wait until a deadline. Without a notification, only time ends it: the deadline has passed, or the clock cannot be
/// read. It never stalls.
#[derive(Drop)]
pub(crate) struct UntilInstant<'a, R> {
    pub(crate) rt: &'a R,
    pub(crate) until: Instant,
}

impl<R: Wait + Clock> Deadline for UntilInstant<'_, R> {
    fn wait(&self, wait_queue: &WaitQueue, seat: u16) -> bool {
        wait_queue.wait_until(self.rt, seat, self.until)
    }
}
