// The order in which a seat locks the lines of its table.
ghost use Rattle.std.specs.Prelude.{◌≡◌, ◌<◌, ◌≤◌, ◌+◌, length};
ghost use Rattle.txc_table_lines.specs.Guards.{IsFound};
ghost use Rattle.txc_table_lines.specs.Lines.{line_ids, share_at};

use super::Lines;
use crate::lock_permit::LockPermit;
use crate::seat_shares::SeatShares;
use std::marker::Model;
use std::snapshot::Snapshot;
use std::sync::Wait;
use txc_chan::Log;
use txc_table_line::LineGuard;

/// The only way to lock lines of a table one after another: their numbers must rise, so that no two threads wait for
/// each other. Until the last of its lines is unlocked, the seat cannot make another order. In a contract it is the
/// lines, and the lowest number of a line that can still be locked.
#[derive(Drop)]
pub struct LockOrder<'a, K: Log> {
    lines: &'a Lines<K>,
    // Only for proofs.
    lowest: Snapshot<u32>,
}

impl<'a, K: Log> Model for LockOrder<'a, K> {
    ghost use Rattle.txc_table_lines.specs.LockOrder.{LockOrderView};

    ghost Value = { LockOrderView };

    ghost view = { λ order. record { lines = order.lines.now; lowest = order.lowest.value } };
}

impl<'a, K: Log> LockOrder<'a, K> {
    /// Makes the order of a seat that has locked no line. The seat's permit is borrowed until the last line is
    /// unlocked.
    #[inline(always)]
    pub fn new(lines: &'a Lines<K>, permit: &'a mut LockPermit) -> LockOrder<'a, K>
        ensures lines { result.lines ≡ lines.now }
        ensures lowest { result.lowest ≡ 0 }
    {
        // Only for the borrow checker: while a line is locked, the permit cannot be used again.
        let _ = permit;
        LockOrder {
            lines,
            lowest: Snapshot::of(&0),
        }
    }

    /// Locks the line with this number, which must be greater than those of the lines that are locked. If the lock is
    /// taken, it looks again `tries` times before it waits in the queue. It blocks while another thread has the lock.
    #[inline(always)]
    pub(crate) fn take_line<R: Wait>(
        &mut self,
        rt: &R,
        number: u16,
        tries: u32,
        shares: &mut SeatShares<K>,
    ) -> LineGuard<'a, K>
        requires of { line_ids shares.old ≡ self.old.lines }
        requires there { number < length self.old.lines }
        requires rising { self.old.lowest ≤ number }
        ensures found { IsFound (share_at shares.old number) result }
        ensures next { self.new.lowest ≡ number + 1 }
        ensures lines { self.new.lines ≡ self.old.lines }
        ensures same { shares.new ≡ shares.old }
    {
        self.lowest = Snapshot::of(&(u32::from(number) + 1));
        lock_line(rt, self.lines, number, tries, shares)
    }
}

/// Locks the line with this number. It blocks while another thread has the lock.
fn lock_line<'a, R: Wait, K: Log>(
    rt: &R,
    lines: &'a Lines<K>,
    number: u16,
    tries: u32,
    shares: &mut SeatShares<K>,
) -> LineGuard<'a, K>
    requires of { line_ids shares.old ≡ lines.now }
    requires there { number < length lines.now }
    ensures found { IsFound (share_at shares.old number) result }
    ensures same { shares.new ≡ shares.old }
{
    let number = usize::from(number);
    let share = &mut shares.shares[number];
    share.show();
    LineGuard::take(rt, &lines.locks[number], tries, share)
}
