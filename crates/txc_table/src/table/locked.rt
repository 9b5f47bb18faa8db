// A table whose lines are all locked.
ghost use Rattle.std.specs.Prelude.{◌≡◌, ◌≤◌, length};
ghost use Rattle.txc_table_lines.specs.Locked.{AreClean, helds_of, lines_of};
ghost use Rattle.txc_table.specs.Table.{IsValidTable, table_lines};

use super::Table;
use crate::shelves::Shelves;
use crate::table_seats::TableSeats;
use std::sync::Wait;
use txc_base::{Kind, List};
use txc_chan::Log;
use txc_table_lines::{LockBuffer, LockedLines};
use txc_table_wait::WaitQueue;

/// A table whose lines are all locked.
#[derive(Drop)]
pub(super) struct LockedTable<K: Log> {
    pub(super) lines: LockedLines<K>,
    pub(super) shelves: Shelves<K>,
    pub(super) kinds: List<Kind>,
    pub(super) table_seats: TableSeats,
    pub(super) wait_queue: WaitQueue,
}

impl<K: Log> LockedTable<K> {
    /// Unlocks the lines, and returns the table with the buffer for its locks.
    pub(super) fn unlock(self) -> (Table<K>, LockBuffer<K>)
        requires { IsValidTable K.shelves (lines_of self.lines) self.shelves self.kinds self.table_seats.seats }
        ensures same { result.0 ≡ record {
          lines = table_lines self.table_seats (lines_of self.lines);
          made = self.shelves;
          kinds = self.kinds;
          seats = self.table_seats.seats;
        } }
        ensures room { length self.lines ≤ result.1 }
    {
        let LockedTable {
            lines,
            shelves,
            kinds,
            table_seats,
            wait_queue,
        } = self;
        let (lines, room) = lines.unlock();
        let table = Table {
            lines,
            shelves,
            kinds,
            table_seats,
            wait_queue,
        };
        (table, room)
    }
}

impl<K: Log> Table<K> {
    /// Locks all lines, and undoes what was not committed. Blocks while another thread has one of the locks.
    pub(super) fn lock<R: Wait>(self, rt: &R, room: LockBuffer<K>) -> LockedTable<K>
        requires room { length self.lines.all ≤ room }
        ensures clean { AreClean (helds_of result.lines) }
        ensures tabled { IsValidTable K.shelves (lines_of result.lines) result.shelves result.kinds
            result.table_seats.seats }
        ensures same { self ≡ record {
          lines = table_lines result.table_seats (lines_of result.lines);
          made = result.shelves;
          kinds = result.kinds;
          seats = result.table_seats.seats;
        } }
    {
        let Table {
            lines,
            shelves,
            kinds,
            table_seats,
            wait_queue,
        } = self;
        LockedTable {
            lines: lines.lock_all(rt, room),
            shelves,
            kinds,
            table_seats,
            wait_queue,
        }
    }
}
