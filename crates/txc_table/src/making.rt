// Making a table.
ghost use Rattle.std.specs.Prelude.{◌≡◌, ◌≤◌, [], All, length, map, replicate, is_some};
ghost use Rattle.std.specs.Prelude.{vec_capacity, IfOk};
ghost use Rattle.txc_chan.specs.Logged.{opened};
ghost use Rattle.txc_table_lines.specs.Lines.{fresh_share};
ghost use Rattle.txc_table.specs.Seat.{AreNewHistories, new_seats};
ghost use Rattle.txc_table.specs.Table.{shelved_for, table_lines};

use crate::line_access::LineAccess;
use crate::seat::Seat;
use crate::shelves::Shelves;
use crate::table_seats::TableSeats;
use std::alloc::{AllocError, Global};
use txc_base_ledger::Ledger;
use txc_chan::{Chan, Decl, Log};
use txc_table_lines::{Lines, LockPermits, SeatShares, open};
use txc_table_seat::{History, PaddedReceipt, Receipts};

/// Makes these channels, with their shelves. Returns `AllocError` if a declaration is invalid or an allocation fails.
/// Allocates.
pub(crate) fn make_chans<K: Log>(
    alloc: Global,
    decls: &[Decl],
) -> Result<(Vec<Chan<K>>, Shelves<K>), AllocError>
    ensures made { IfOk result (λ made. map (λ held. held.logged) made.0.items ≡ map opened decls.now) }
    ensures theirs { IfOk result (λ made. made.1 ≡ made.0.items) }
    ensures shelved { IfOk result (λ made. map (λ held. is_some held.shelf) made.0.items
        ≡ shelved_for K.shelves decls.now) }
{
    let mut chans = Vec::new(alloc);
    let mut shelves = Vec::new(alloc);
    for decl in decls {
        let Ok((chan, shelf)) = Chan::<K>::build(alloc, decl.kind, decl.bound, decl.readers) else {
            return Err(AllocError);
        };
        chan.show();
        chans.push(chan)?;
        shelves.push(shelf)?;
    }
    let shelves = Shelves::new(shelves, &chans);
    Ok((chans, shelves))
}

/// Makes the lines of a new table of these channels, to which the shelves belong, what each of its seats has of them, and
/// the permits of the seats. Returns `AllocError` if an allocation fails. Allocates.
pub(crate) fn make_lines<K: Log>(
    alloc: Global,
    chans: Vec<Chan<K>>,
    shelves: &Shelves<K>,
    seats: u16,
) -> Result<(Lines<K>, (Vec<SeatShares<K>>, LockPermits)), AllocError>
    requires theirs { shelves.now ≡ chans.items }
    requires made { All (λ held. held.logged ≡ opened held.logged.decl) chans.items }
    ensures lines { IfOk result (λ made. map (λ line. line.decl) made.0 ≡ map (λ held. held.logged.decl) chans.items) }
    ensures ledgers { IfOk result (λ made. All (λ line. line.ledgers.seats ≡ seats) made.0) }
    ensures seats { IfOk result (λ made. made.1.0.items ≡ replicate seats (map fresh_share made.0)) }
    ensures permits { IfOk result (λ made. made.1.1 ≡ seats) }
{
    // Only for the proof: the shelves belong to these channels.
    let _theirs = shelves;
    open(alloc, chans, seats)
}

/// Makes the histories of the seats of a new table with this number of channels: the seats are numbered from 0 and have
/// no receipts. Returns `AllocError` if an allocation fails. Allocates.
pub(crate) fn make_histories<S: Receipts>(
    alloc: Global,
    channels: u16,
    seats: u16,
) -> Result<Vec<History<S>>, AllocError>
    ensures many { IfOk result (λ made. length made.items ≡ seats) }
    ensures new { IfOk result (λ made. AreNewHistories 0 channels made.items) }
{
    let mut made = Vec::new(alloc);
    for number in 0..seats {
        made.push(History::new(alloc, number, channels)?)?;
    }
    Ok(made)
}

/// Makes the drafts of this number of seats. Returns `AllocError` if an allocation fails. Allocates.
pub(crate) fn make_drafts(alloc: Global, seats: u16) -> Result<Vec<Box<PaddedReceipt>>, AllocError>
    ensures { IfOk result (λ made. length made.items ≡ seats) }
{
    let mut made = Vec::new(alloc);
    for _made in 0..seats {
        made.push(Box::new(alloc, PaddedReceipt::blank(alloc))?)?;
    }
    Ok(made)
}

/// Makes the seats of a new table with these lines in this room, from their histories, their drafts, what a new seat has
/// of each line, and the permits: they are numbered from 0, have no receipts and have seen no entry. Returns how many
/// seats the table has, with the seats.
pub(crate) fn make_seats<K: Log, S: Receipts>(
    lines: &Lines<K>,
    histories: Vec<History<S>>,
    drafts: Vec<Box<PaddedReceipt>>,
    room: Vec<Seat<K, S>>,
    access: (Vec<SeatShares<K>>, LockPermits),
) -> (TableSeats, Vec<Seat<K, S>>)
    requires new { AreNewHistories 0 (length lines.now) histories.items }
    requires few { length histories.items ≤ u16.MAX }
    requires empty { room.items ≡ [] }
    requires room { length histories.items ≤ vec_capacity room }
    requires fresh { access.0.items ≡ replicate (length histories.items) (map fresh_share lines.now) }
    requires permits { access.1 ≡ length histories.items }
    requires drafts { length drafts.items ≡ length histories.items }
    ensures seats { result.0.seats ≡ length histories.items }
    ensures made { result.1.items ≡ new_seats (table_lines result.0 lines.now) (length histories.items) }
{
    // Only for the proof: these are the lines.
    let _whose = lines;
    let count = histories.len() as u16;
    // Only for proofs: the ledger has a part for each seat, by which each seat is known to be of this table.
    let (_ledger, mut share) = Ledger::new(u64::from(count));
    let table_seats = TableSeats::new(count, &share);
    let mut made = room;
    let (mut shares, mut permits) = access;
    let mut drafts = drafts;
    for history in histories {
        let Some(draft) = drafts.pop() else {
            unreachable!()
        };
        let Some(shares) = shares.pop() else {
            unreachable!()
        };
        let permit = permits.take();
        let access = LineAccess { shares, permit };
        made.push_reserved(Seat::new(history, draft, access, share.split_off(1, 0)));
    }
    (table_seats, made)
}
