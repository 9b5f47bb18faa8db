// A table of channels.
ghost use Rattle.std.specs.Prelude.{◌≡◌, ◌↔◌, true, None, IfOk, IfErr, IfSome, IsTrue, OnOk};
ghost use Rattle.txc_table_report.specs.Refusal.{reason, refusal, refusal_of};
ghost use Rattle.txc_table.specs.Built.{IsBuilt};
ghost use Rattle.txc_table.specs.Seen.{IsBroadcastAt, IsSeen};

use crate::making::{make_chans, make_drafts, make_histories, make_lines, make_seats};
use crate::seat::Seat;
use crate::shelves::Shelves;
use crate::table_seats::TableSeats;
use std::alloc::Global;
use std::marker::Model;
use txc_base::{Kind, List};
use txc_cast::Sight;
use txc_chan::{Decl, FullLog, Log, kinds_of};
use txc_table_lines::Lines;
use txc_table_report::{Limits, TableFault, table_fault};
use txc_table_seat::Receipts;
use txc_table_wait::WaitQueue;

mod attempt;
mod finish;
mod idle;
mod leave;
mod locked;
mod summary;
mod take_snapshot;
mod transact;

pub use idle::IdleTable;

/// A table of channels, each under a lock of its own, and of a number of seats. It keeps its logs whole (`FullLog`), or
/// only the part of them that can still be undone (`GhostLog`).
///
/// Contracts see its lines, the channels as they were made (`made`, which `look` and `same` read), their kinds, and the
/// number of its seats. None of these changes.
#[derive(Drop)]
pub struct Table<K: Log = FullLog> {
    lines: Lines<K>,
    shelves: Shelves<K>,
    kinds: List<Kind>,
    table_seats: TableSeats,
    // Notifies the seats that wait for what a commit changed, after its locks are released.
    wait_queue: WaitQueue,
}

impl<K: Log> Model for Table<K> {
    ghost use Rattle.txc_table.specs.Table.{IsValidTable, TableView, table_lines};

    ghost Value = { TableView };

    ghost view = { λ table. record {
      lines = table_lines table.table_seats table.lines;
      made = table.shelves;
      kinds = table.kinds;
      seats = table.table_seats.seats;
    } };

    ghost invariant = { λ table. IsValidTable K.shelves table.lines table.shelves table.kinds table.table_seats.seats };
}

impl<K: Log> Table<K> {
    /// Makes a table of at most 8 channels and 16 seats, like `with_limits` with `Limits::Small`.
    pub fn build<S: Receipts>(
        alloc: Global,
        decls: &[Decl],
        seats: u16,
    ) -> Result<(Table<K>, Vec<Seat<K, S>>), TableFault>
        ensures ok { IfOk result (λ made. IsBuilt decls.now seats made.0 made.1.items) }
        ensures fine { OnOk result (refusal decls.now seats ≡ None) }
        ensures err { IfErr result (λ fault. refusal decls.now seats ≡ reason fault) }
    {
        Table::with_limits(alloc, Limits::Small, decls, seats)
    }

    /// Makes a table of these channels, numbered from 0 in the order of their declarations, and its seats. Returns the
    /// first error that applies: `TooManyChannels` for more channels than the limits allow, `BadSeatCount` for 0 seats
    /// or more than they allow, then `BoundTooLarge` and `TooManyReaders` for each channel in order, and `NoMemory`
    /// last. Does not block. Allocates.
    pub fn with_limits<S: Receipts>(
        alloc: Global,
        limits: Limits,
        decls: &[Decl],
        seats: u16,
    ) -> Result<(Table<K>, Vec<Seat<K, S>>), TableFault>
        ensures ok { IfOk result (λ made. IsBuilt decls.now seats made.0 made.1.items) }
        ensures fine { OnOk result (refusal_of limits decls.now seats ≡ None) }
        ensures err { IfErr result (λ fault. refusal_of limits decls.now seats ≡ reason fault) }
    {
        if let Some(fault) = table_fault(limits, decls, seats) {
            return Err(fault);
        }
        let channels = decls.len() as u16;
        let kinds = kinds_of(alloc, decls)?;
        let (chans, shelves) = make_chans(alloc, decls)?;
        let (lines, shares) = make_lines(alloc, chans, &shelves, seats)?;
        let histories = make_histories(alloc, channels, seats)?;
        let drafts = make_drafts(alloc, seats)?;
        let wait_queue = WaitQueue::new(alloc, channels, seats)?;
        let room = Vec::with_capacity(alloc, usize::from(seats))?;
        let (table_seats, made) = make_seats(&lines, histories, drafts, room, shares);
        let table = Table {
            lines,
            shelves,
            kinds: List::from_vec(kinds),
            table_seats,
            wait_queue,
        };
        Ok((table, made))
    }

    /// Returns the kinds of the channels, by their numbers.
    pub fn kinds(&self) -> &[Kind]
        ensures { result.now ≡ self.now.kinds }
    {
        self.kinds.as_slice()
    }

    /// Returns the number of seats.
    pub fn seats(&self) -> u16
        ensures { result ≡ self.now.seats }
    {
        self.table_seats.count()
    }

    /// Returns the item at a slot of a broadcast channel's shelf. The shelf has each written item, also those of a
    /// transaction that has not committed or was rolled back, at a slot that never changes. Returns `None` if the table
    /// has no such channel, if the channel is a queue, or if the slot is still empty. Always returns `None` on a table
    /// whose logs are `GhostLog`, which has no shelves. Takes no lock.
    pub fn look(&self, chan: u16, slot: usize) -> Option<Sight>
        ensures own { IfSome result (λ sight. IsSeen self.now.made chan sight) }
        ensures slot { IfSome result (λ sight. sight.slot ≡ slot) }
        ensures broadcast { IfSome result (λ sight. IsBroadcastAt self.now.kinds chan) }
    {
        let chan = usize::from(chan);
        if !is_broadcast_at(self.kinds(), chan) {
            return None;
        }
        self.shelves.look(chan, slot)
    }

    /// Returns whether two sights, both returned by `look` for this channel, are of one slot. They then show one item.
    /// Takes no lock.
    pub fn same(&self, chan: u16, first: &Sight, second: &Sight) -> bool
        requires first { IsSeen self.now.made chan first.now }
        requires second { IsSeen self.now.made chan second.now }
        ensures same { IsTrue result ↔ (first.now.slot ≡ second.now.slot) }
        ensures items { IsTrue result → first.now.item ≡ second.now.item }
    {
        self.shelves.same(usize::from(chan), first, second)
    }
}

/// Returns whether these kinds have one with this number and it is a broadcast kind.
fn is_broadcast_at(kinds: &[Kind], chan: usize) -> bool
    ensures { result ≡ true → IsBroadcastAt kinds.now chan }
{
    match kinds.get(chan) {
        Some(kind) => kind.is_broadcast(),
        None => false,
    }
}
