// A seat leaves its table.
ghost use Rattle.std.specs.Prelude.{◌≡◌};

use super::Table;
use crate::departed_seat::DepartedSeat;
use crate::seat::Seat;
use std::sync::Wait;
use txc_chan::Log;
use txc_table_seat::Receipts;

impl<K: Log> Table<K> {
    /// Takes a seat of the table that is done, with its receipts, so that the table can be finished. If each other seat
    /// waits with no deadline or has left, the waiting seats stall. Blocks only for the wait queue's lock.
    pub fn leave<S: Receipts, R: Wait>(&self, rt: &R, seat: Seat<K, S>) -> DepartedSeat<K, S>
        requires { seat.lines ≡ self.now.lines }
        ensures commits { result.commits ≡ seat.commits }
        ensures lines { result.lines ≡ seat.lines }
    {
        self.wait_queue.leave(rt, seat.number());
        seat.into_departed()
    }
}
