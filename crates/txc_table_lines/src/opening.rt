// The lines of a new table.
ghost use Rattle.std.specs.Prelude.{◌≡◌, ◌++◌, ◌∷◌, [], All, IfOk, length, map, replicate};
ghost use Rattle.txc_chan.specs.Logged.{opened};
ghost use Rattle.txc_table_lines.specs.Lines.{fresh_share};

use crate::lines::Lines;
use crate::lock_permit::LockPermits;
use crate::seat_shares::SeatShares;
use std::alloc::{AllocError, Global};
use txc_chan::{Chan, Log};
use txc_table_line::{LineChan, LineLock, SeatShare};

/// Puts a channel as it was made under a lock, and gives each seat its share of the line. Returns the lock, or
/// `AllocError` if an allocation fails.
fn add_line<K: Log>(
    alloc: Global,
    chan: Chan<K>,
    seats: &mut Vec<SeatShares<K>>,
    count: u16,
) -> Result<LineLock<K>, AllocError>
    requires made { chan.logged ≡ opened chan.logged.decl }
    requires count { length seats.old.items ≡ count }
    ensures decl { IfOk result (λ lock. lock.label.value.line.decl ≡ chan.logged.decl) }
    ensures ledgers { IfOk result (λ lock. lock.label.value.line.ledgers.seats ≡ count) }
    ensures seats { IfOk result (λ lock. seats.new.items
        ≡ map (λ shares. shares ++ fresh_share lock.label.value.line ∷ []) seats.old.items) }
{
    let (mut channel, mut shares) = LineChan::new(chan, count);
    for at in 0..seats.len() {
        seats[at].add(SeatShare::new(shares.cut(), &mut channel))?;
    }
    channel.into_lock(alloc)
}

/// Makes the lines of a new table of these channels, which are as they were made, the shares that each of `count` seats
/// has of them, and the permits of the seats. Returns `AllocError` if an allocation fails.
pub fn open<K: Log>(
    alloc: Global,
    chans: Vec<Chan<K>>,
    count: u16,
) -> Result<(Lines<K>, (Vec<SeatShares<K>>, LockPermits)), AllocError>
    requires { All (λ held. held.logged ≡ opened held.logged.decl) chans.items }
    ensures lines { IfOk result (λ made. map (λ line. line.decl) made.0 ≡ map (λ held. held.logged.decl) chans.items) }
    ensures ledgers { IfOk result (λ made. All (λ line. line.ledgers.seats ≡ count) made.0) }
    ensures seats { IfOk result (λ made. made.1.0.items ≡ replicate count (map fresh_share made.0)) }
    ensures permits { IfOk result (λ made. made.1.1 ≡ count) }
{
    let mut locks = Vec::new(alloc);
    let mut seats = Vec::new(alloc);
    for _ in 0..count {
        seats.push(SeatShares::new(alloc))?;
    }
    for chan in chans {
        locks.push(add_line(alloc, chan, &mut seats, count)?)?;
    }
    Ok((Lines::new(locks), (seats, LockPermits::new(count))))
}
