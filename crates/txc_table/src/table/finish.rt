// The end of a table.
ghost use Rattle.std.specs.Prelude.{IfOk, IfErr, ◌↔◌, IsErrAnd};
ghost use Rattle.txc_table.specs.Finished.{IsFinished};
ghost use Rattle.txc_table.specs.Refused.{IsMissing, IsSeatMissing, Refused};
ghost use Rattle.txc_table.specs.Seat.{AreOf, commits_of};

use super::Table;
use crate::departed_seat::DepartedSeat;
use crate::finish_fault::FinishFault;
use crate::gathered::is_missing;
use std::alloc::Global;
use std::sync::Wait;
use txc_txn::Report;

impl Table {
    /// Ends the table after all its seats have left. Returns the report: an account of each channel, which takes over
    /// the channel's log, and the receipts of each seat, by its number. The seats must be of this table. Returns
    /// `SeatMissing` if the number of a seat is in none of `left`, otherwise `NoMemory` if allocation fails. Both
    /// return the table and the seats unchanged. `Torn` is never returned. Locks all channels, but does not block,
    /// because a seat that has left holds no lock. Allocates, but not for the logs.
    pub fn finish<R: Wait>(
        self,
        rt: &R,
        alloc: Global,
        left: Vec<DepartedSeat>,
    ) -> Result<Report, FinishFault>
        requires of { AreOf self.lines left.items }
        ensures finished { IfOk result (IsFinished self left.items) }
        ensures missing { IsErrAnd result IsSeatMissing ↔ IsMissing self.seats (commits_of left.items) }
        ensures refused { IfErr result (λ fault. Refused self left.items fault) }
    {
        if is_missing(left.as_slice(), self.seats()) {
            return Err(FinishFault::SeatMissing(self, left));
        }
        let idle = match self.into_idle(rt, alloc, left) {
            Ok(idle) => idle,
            Err((table, left)) => return Err(FinishFault::NoMemory(table, left)),
        };
        match idle.finish(rt, alloc) {
            Ok(report) => Ok(report),
            Err(idle) => {
                let (table, left) = idle.unlock();
                Err(FinishFault::NoMemory(table, left))
            }
        }
    }
}
