// The end of a table, without its logs.
ghost use Rattle.std.specs.Prelude.{◌≡◌, IfOk, IfErr, ◌↔◌, IsErrAnd};
ghost use Rattle.txc_table.specs.Finished.{IsFinishedInSummary};
ghost use Rattle.txc_table.specs.Refused.{AreAllSeats, IsMissing, IsSeatMissing, Refused};
ghost use Rattle.txc_table.specs.Seat.{AreOf, commits_of};

use super::Table;
use crate::closing::report_in_summary;
use crate::departed_seat::DepartedSeat;
use crate::finish_fault::FinishFault;
use crate::gathered::is_missing;
use std::alloc::Global;
use std::sync::Wait;
use txc_base::List;
use txc_chan::{Log, Summary};
use txc_table_seat::Receipts;

impl<K: Log> Table<K> {
    /// Ends the table like `finish`, for any kind of logs and receipts, and returns a summary of each channel: the
    /// account without its log. A report of all logs and receipts exists, in which each item of a queue was taken once
    /// or remains, and these are its summaries. That report need not be in memory. The seats must be of this table.
    /// Returns the errors of `finish`. Locks all channels, but does not block, because a seat that has left holds no
    /// lock. Allocates for the items that remain in the channels.
    pub fn finish_in_summary<S: Receipts, R: Wait>(
        self,
        rt: &R,
        alloc: Global,
        left: Vec<DepartedSeat<K, S>>,
    ) -> Result<List<Summary>, FinishFault<K, S>>
        requires of { AreOf self.lines left.items }
        ensures finished { IfOk result (λ summaries. IsFinishedInSummary self left.items summaries) }
        ensures missing { IsErrAnd result IsSeatMissing ↔ IsMissing self.seats (commits_of left.items) }
        ensures refused { IfErr result (λ fault. Refused self left.items fault) }
    {
        if is_missing(left.as_slice(), self.seats()) {
            return Err(FinishFault::SeatMissing(self, left));
        }
        match self.into_summaries(rt, alloc, left) {
            Ok(summaries) => Ok(summaries),
            Err((table, left)) => Err(FinishFault::NoMemory(table, left)),
        }
    }

    /// Ends a table whose seats are all in `left`, like `finish_in_summary`. Returns the table and the seats if
    /// allocation fails. Allocates.
    fn into_summaries<S: Receipts, R: Wait>(
        self,
        rt: &R,
        alloc: Global,
        left: Vec<DepartedSeat<K, S>>,
    ) -> Result<List<Summary>, (Table<K>, Vec<DepartedSeat<K, S>>)>
        requires { AreAllSeats self.lines self.seats left.items }
        ensures finished { IfOk result (λ summaries. IsFinishedInSummary self left.items summaries) }
        ensures again { IfErr result (λ again. (again.0 ≡ self) × (again.1.items ≡ left.items)) }
    {
        let room = match self.lines.lock_buffer(alloc) {
            Ok(room) => room,
            Err(_) => return Err((self, left)),
        };
        let mut locked = self.lock(rt, room);
        match report_in_summary(&mut locked.lines, alloc, &locked.table_seats, left) {
            Ok(summaries) => {
                drop(locked);
                Ok(List::from_vec(summaries))
            }
            Err(left) => {
                let (table, _room) = locked.unlock();
                Err((table, left))
            }
        }
    }
}
