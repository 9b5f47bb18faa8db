// The bits of the seats that wait for a channel.
ghost use Rattle.std.specs.Prelude.{◌≡◌, IfOk};
ghost use Rattle.std.specs.Vec.{vec_len};

use crate::change::Change;
use crossbeam_utils::CachePadded;
use std::alloc::{AllocError, Global};
use std::sync::atomic::AtomicU64;
use std::sync::atomic::Ordering::SeqCst;

/// The bits of the seats that wait for an item of a channel, and of those that wait for room. A seat that waits for any
/// change has a bit in both. Each word has its own cache line, so work on one channel does not slow down another.
#[derive(Drop)]
pub(crate) struct InterestedSeats {
    more: CachePadded<AtomicU64>,
    less: CachePadded<AtomicU64>,
}

/// Creates the words of this number of channels, with no bits set.
pub(crate) fn make_interested(
    alloc: Global,
    channels: usize,
) -> Result<Vec<InterestedSeats>, AllocError>
    ensures { IfOk result (λ interested. vec_len interested ≡ channels) }
{
    let mut interested = Vec::with_capacity(alloc, channels)?;
    for _made in 0..channels {
        interested.push(InterestedSeats {
            more: CachePadded::new(AtomicU64::new(0)),
            less: CachePadded::new(AtomicU64::new(0)),
        })?;
    }
    Ok(interested)
}

/// Clears these bits of a word. Writes nothing if none of them is set, because seats share the word.
fn remove(word: &AtomicU64, bits: u64) {
    if word.load(SeqCst) & bits != 0 {
        word.fetch_and(!bits, SeqCst);
    }
}

/// Clears all bits of a word and returns them. Writes nothing if none is set.
fn take_bits(word: &AtomicU64) -> u64 {
    if word.load(SeqCst) == 0 {
        0
    } else {
        word.swap(0, SeqCst)
    }
}

impl InterestedSeats {
    /// Sets these bits for a change.
    pub(crate) fn add(&self, change: Change, bits: u64) {
        if !change.is_removed() {
            self.more.fetch_or(bits, SeqCst);
        }
        if !change.is_added() {
            self.less.fetch_or(bits, SeqCst);
        }
    }

    /// Clears these bits for all changes.
    pub(crate) fn remove(&self, bits: u64) {
        remove(&self.more, bits);
        remove(&self.less, bits);
    }

    /// Clears all bits for a change and returns them.
    pub(crate) fn take_bits(&self, change: Change) -> u64 {
        match change {
            Change::Added => take_bits(&self.more),
            Change::Removed => take_bits(&self.less),
            Change::Any => take_bits(&self.more) | take_bits(&self.less),
        }
    }
}
