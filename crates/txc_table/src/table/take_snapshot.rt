// Snapshots of a channel, for a seat.
ghost use Rattle.std.specs.Prelude.{◌≡◌, ◌<◌, length, IfOk, IfErr, OnErr};
ghost use Rattle.txc_chan.specs.Chan.{summary_of};
ghost use Rattle.txc_table_line.specs.Account.{IsSnapshotOf};
ghost use Rattle.txc_table_line.specs.Line.{decl_at};
ghost use Rattle.txc_table_seat.specs.Seated.{count};
ghost use Rattle.txc_table.specs.Seat.{IsAccountTo, SeesMore, seen_at};
ghost use Rattle.txc_table.specs.Table.{decls_of};

use super::Table;
use crate::line_access::LineAccess;
use crate::seat::Seat;
use std::sync::Wait;
use txc_base::Stop;
use txc_chan::{Account, Log, Summary};
use txc_table_line::{SnapshotKind, Summarized, WithLog};
use txc_table_lines::LockOrder;
use txc_table_seat::Receipts;

impl<K: Log> Table<K> {
    /// Returns a snapshot of a channel, which must be one of the table's, to a seat of the table. The channel's log
    /// begins with what the seat has seen of it, and the seat has then seen all of it. Returns `NoMemory`, and no other
    /// stop, if allocation fails; the seat is then unchanged. Blocks for that channel's lock. Allocates.
    fn take_snapshot<T: SnapshotKind<K>, S: Receipts, R: Wait>(
        &self,
        rt: &R,
        seat: &mut Seat<K, S>,
        chan: u16,
    ) -> Result<T::Output, Stop>
        requires of { seat.old.lines ≡ self.now.lines }
        requires there { chan < length self.now.kinds }
        ensures ok { IfOk result (IsSnapshotOf T.snapshot_of (decl_at (decls_of self.now.lines) chan)
            (count chan seat.old.commits.receipts) (seen_at seat.new chan)) }
        ensures grew { SeesMore (seen_at seat.old) (seen_at seat.new) }
        ensures err { IfErr result (λ stop. stop ≡ Stop.NoMemory) }
        ensures same { seat.new.commits ≡ seat.old.commits }
        ensures lines { seat.new.lines ≡ seat.old.lines }
        ensures unchanged { OnErr result (seat.new ≡ seat.old) }
    {
        // Only for the proof: the invariant of the type says that there is a line for each kind.
        let _lines = &self.kinds;
        let LineAccess { shares, permit } = &mut seat.access;
        shares.take_snapshot::<T, R>(rt, LockOrder::new(&self.lines, permit), chan)
    }

    /// Returns a snapshot of a channel without its log, for any kind of log. The channel must be one of the table's.
    /// Returns `NoMemory`, and no other stop, if allocation fails; the seat is then unchanged. Blocks for that
    /// channel's lock. Allocates for what remains in the channel.
    pub fn summary<S: Receipts, R: Wait>(
        &self,
        rt: &R,
        seat: &mut Seat<K, S>,
        chan: u16,
    ) -> Result<Summary, Stop>
        requires of { seat.old.lines ≡ self.now.lines }
        requires there { chan < length self.now.kinds }
        ensures ok { IfOk result (IsSnapshotOf summary_of (decl_at (decls_of self.now.lines) chan)
            (count chan seat.old.commits.receipts) (seen_at seat.new chan)) }
        ensures grew { SeesMore (seen_at seat.old) (seen_at seat.new) }
        ensures err { IfErr result (λ stop. stop ≡ Stop.NoMemory) }
        ensures same { seat.new.commits ≡ seat.old.commits }
        ensures lines { seat.new.lines ≡ seat.old.lines }
        ensures unchanged { OnErr result (seat.new ≡ seat.old) }
    {
        self.take_snapshot::<Summarized, S, R>(rt, seat, chan)
    }
}

impl Table {
    /// Returns a snapshot of a channel with its log, to a seat of the table. The channel must be one of the table's.
    /// The log begins with what the seat has seen of it, and the seat has then seen all of it. Each act of the seat
    /// there is the entry at its place. Returns `NoMemory`, and no other stop, if allocation fails; the seat is then
    /// unchanged. Blocks for that channel's lock. Allocates.
    pub fn account<R: Wait>(&self, rt: &R, seat: &mut Seat, chan: u16) -> Result<Account, Stop>
        requires of { seat.old.lines ≡ self.now.lines }
        requires there { chan < length self.now.kinds }
        ensures ok { IfOk result (IsAccountTo seat.old (decls_of self.now.lines) chan) }
        ensures seen { IfOk result (λ account. seen_at seat.new chan ≡ account.log) }
        ensures grew { SeesMore (seen_at seat.old) (seen_at seat.new) }
        ensures err { IfErr result (λ stop. stop ≡ Stop.NoMemory) }
        ensures same { seat.new.commits ≡ seat.old.commits }
        ensures lines { seat.new.lines ≡ seat.old.lines }
        ensures unchanged { OnErr result (seat.new ≡ seat.old) }
    {
        // Only for the proof: the invariant of the type says that the seat's acts are the entries at their places.
        let _stands = &seat.access;
        self.take_snapshot::<WithLog, _, R>(rt, seat, chan)
    }
}
