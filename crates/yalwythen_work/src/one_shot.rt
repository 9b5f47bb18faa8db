// A cell for the seat of a session.
ghost use Rattle.std.specs.Prelude.{◌≡◌, IfOk, IfSome};
ghost use Rattle.yalwythen_work.specs.OneShot.{HasEmptySlot};
ghost use Rattle.yalwythen_work.specs.SeatWithPlans.{IsAfterSession};
ghost use Rattle.yalwythen_work.specs.declared.states.TheConstants.{FULL};

use crate::recording::Recording;
use crate::seat_with_plans::SeatWithPlans;
use crate::states::{CLAIMED, EMPTY, FULL};
use atomic_table::{Play, Seat, Table, TableRule};
use std::alloc::{AllocError, Global};
use std::marker::{Model, PhantomData};
use std::mem;
use std::snapshot::Snapshot;
use std::sync::Wait;

// `Seat` and `Table` of `atomic_table` are no seats and tables of channels: a `Table` is a value that threads share,
// and a thread changes it by a `Seat`.

/// The rule of a cell's table, for proofs: a full cell has what its first seat can become at a session.
pub(crate) struct Filled<K> {
    of: PhantomData<K>,
}

impl<K: Recording> TableRule<Option<SeatWithPlans<K>>, (), Snapshot<SeatWithPlans<K>>>
    for Filled<K> {
    ghost use Rattle.yalwythen_work.specs.OneShot.{IsKept};
    ghost use Rattle.yalwythen_work.specs.SeatWithPlans.{IsAfterSession};

    ghost holds = { λ first. IsKept (IsAfterSession first.value) };

    ghost first = { λ _. tt };
}

/// A step that claims a cell that is empty.
struct Claim;

impl<X> Play<Option<X>, ()> for Claim {
    ghost use Rattle.std.specs.Prelude.{◌≡◌};
    ghost use Rattle.yalwythen_work.specs.OneShot.{HasEmptySlot};
    ghost use Rattle.yalwythen_work.specs.declared.states.TheConstants.{EMPTY};

    ghost then = { λ _ _ found after. found ≡ EMPTY → HasEmptySlot after };
}

/// A step that fills a cell.
struct Fill;

impl<X> Play<Option<X>, ()> for Fill {
    ghost then = { λ _ _ _ _. Unit {0} };
}

/// A cell into which a session puts its seat when it is dropped. A worker can do anything with its session, so the
/// contract of `Worker::work` says nothing about the session afterwards. What is in the cell is known by the rule of
/// its table.
pub(crate) struct OneShot<K: Recording> {
    table: Table<Option<SeatWithPlans<K>>, (), Snapshot<SeatWithPlans<K>>, Filled<K>, Global>,
    ghost sized: { (table.shared.table_id.words ≡ 1) × (table.shared.table_id.slots ≡ 1) },
}

/// The right to fill a cell, which is empty until then. In a contract it is the seat, with its plans, that the cell was
/// made for.
pub(crate) struct FillPermit<'a, K: Recording> {
    cell: &'a OneShot<K>,
    seat: Seat<Option<SeatWithPlans<K>>, ()>,
}

impl<'a, K: Recording> Model for FillPermit<'a, K> {
    ghost use Rattle.std.specs.Prelude.{◌≡◌};
    ghost use Rattle.std.specs.Coded.{codes};
    ghost use Rattle.txc_txn_check.specs.contracts.step.Step as step;
    ghost use Rattle.yalwythen_work.specs.OneShot.{HasEmptySlot};
    ghost use Rattle.yalwythen_work.specs.SeatWithPlans.{SeatWithPlansView};

    ghost Value = { SeatWithPlansView };

    // Only for the proof: values of `Value` have a code, because the steps in them have one.
    ghost coded = { Prim.hlevel (codes, step.the_row.coded) };

    ghost view = { λ permit. permit.cell.now.table.shared.key.value };

    ghost invariant = { λ permit. (permit.seat.table_id ≡ permit.cell.now.table.shared.table_id)
        × HasEmptySlot permit.seat.me };
}

impl<K: Recording> OneShot<K> {
    /// Makes an empty cell for what this seat becomes at a session. Fails if allocation fails.
    pub(crate) fn new(alloc: Global, both: &SeatWithPlans<K>) -> Result<OneShot<K>, AllocError>
        ensures { IfOk result (λ cell. cell.table.shared.key.value ≡ both.now) }
    {
        let first = Snapshot::of(both);
        let (table, _seat) = Table::vacant(alloc, &[EMPTY], 1, &first)?;
        Ok(OneShot { table })
    }

    /// Claims the cell if it is empty.
    fn try_claim(&self) -> Option<FillPermit<'_, K>>
        ensures { IfSome result (λ permit. permit ≡ self.now.table.shared.key.value) }
    {
        let (found, seat) = self.table.shared.swap_new_seat::<Claim>(0, CLAIMED);
        if found == EMPTY {
            return Some(FillPermit { cell: self, seat });
        }
        None
    }

    /// Claims the cell. Blocks forever if the cell was claimed before.
    pub(crate) fn claim<R: Wait>(&self, rt: &R) -> FillPermit<'_, K>
        ensures { result ≡ self.now.table.shared.key.value }
    {
        for _ in rt.forever() {
            if let Some(permit) = self.try_claim() {
                return permit;
            }
        }
        unreachable!()
    }

    /// Returns what is in the cell. Blocks forever if the cell was not filled.
    pub(crate) fn into_inner<R: Wait>(self, rt: &R) -> SeatWithPlans<K>
        ensures { IsAfterSession self.table.shared.key.value result }
    {
        let OneShot { table } = self;
        let mut closed = table.close();
        let state = closed.word(0);
        let value = closed.take(0);
        closed.free();
        wait_until_full(rt, state);
        let Some(both) = value else { unreachable!() };
        both
    }
}

/// Returns if this is the state of a full cell. Otherwise blocks forever.
fn wait_until_full<R: Wait>(rt: &R, state: u64)
    ensures { state ≡ FULL }
{
    if state == FULL {
        return;
    }
    for _ in rt.forever() {}
    unreachable!()
}

impl<K: Recording> FillPermit<'_, K> {
    /// Fills the cell with what its first seat became.
    pub(crate) fn fill(self, both: SeatWithPlans<K>)
        requires { IsAfterSession self both }
    {
        let FillPermit { cell, mut seat } = self;
        let shared = &cell.table.shared;
        let slot = seat.slot_mut(shared, 0);
        let before = mem::replace(slot, Some(both));
        let None = before else { unreachable!() };
        shared.store::<Fill>(&mut seat, 0, FULL);
    }
}
