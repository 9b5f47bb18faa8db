// A queue without a bound.
ghost use Rattle.std.specs.Prelude.{◌≡◌, ◌+◌, ◌<◌, ◌≤◌, [], ◌∷◌, ◌++◌, true, false, length, reverse};
ghost use Rattle.std.specs.Prelude.{slice_get, vec_len, vec_capacity};
ghost use Rattle.std.specs.Prelude.{IfOk, IfErr, OnOk, OnErr};
ghost use Rattle.txc_queue.specs.declared.queue_fault.QueueFault.TheVariants.{NoMemory};
ghost use Rattle.txc_queue.specs.Queue.{empty, pushed_back, pushed_front, Popped, emptied, unpopped};
ghost use Rattle.txc_queue.specs.Queue.{with_nothing_undoable, without_first_item, without_back};

use crate::queue_fault::QueueFault;
use std::alloc::Global;
use std::marker::Model;
use std::mem;
use txc_base::Item;

/// A queue of items, first in first out, with put-back. It counts the pops that can be undone, and reserves capacity
/// for their undo. `list` and `take_all` take linear time. Every other call takes amortised constant time, unless its
/// comment says otherwise.
#[derive(Debug, Drop)]
pub struct PairQueue {
    // The items that are read first, with the next item last.
    reading: Vec<Item>,
    // The items that are read after `reading`, in order.
    written: Vec<Item>,
    undoable: usize,
}

impl Model for PairQueue {
    ghost use Rattle.std.specs.Prelude.{◌+◌, ◌≤◌, ◌++◌, reverse, vec_len, vec_capacity};
    ghost use Rattle.txc_queue.specs.Queue.{Queue};

    ghost Value = { Queue };

    ghost view = { λ queue. record {
      items = reverse queue.reading.items ++ queue.written.items;
      undoable = queue.undoable;
    } };

    // `reading` has capacity for each pop that can be undone.
    ghost invariant = { λ queue.
        vec_len queue.reading + queue.undoable ≤ vec_capacity queue.reading };
}

impl PairQueue {
    /// Returns an empty queue.
    pub fn new(alloc: Global) -> PairQueue
        ensures { result ≡ empty }
    {
        PairQueue {
            reading: Vec::new(alloc),
            written: Vec::new(alloc),
            undoable: 0,
        }
    }

    /// Puts an item at the end, so that it is read last. Returns `NoMemory` if allocation fails.
    pub fn push_back(&mut self, item: Item) -> Result<(), QueueFault>
        ensures pushed { OnOk result (self.new ≡ pushed_back self.old item) }
        ensures refused { IfErr result (λ fault. (fault ≡ NoMemory) × (self.new ≡ self.old)) }
    {
        self.written.reserve(1)?;
        self.written.push_reserved(item);
        Ok(())
    }

    /// Puts an item in front, so that it is read next. Returns `NoMemory` if allocation fails.
    pub fn push_front(&mut self, item: Item) -> Result<(), QueueFault>
        ensures pushed { OnOk result (self.new ≡ pushed_front self.old item) }
        ensures refused { IfErr result (λ fault. (fault ≡ NoMemory) × (self.new ≡ self.old)) }
    {
        self.reading.reserve(self.undoable + 1)?;
        self.reading.push_reserved(item);
        Ok(())
    }

    /// Removes and returns the first item, or returns `None` if there is none. The pop can be undone. Returns
    /// `NoMemory` if there is an item and the allocation for the undo fails.
    pub fn pop_front(&mut self) -> Result<Option<Item>, QueueFault>
        ensures popped { IfOk result (λ taken. Popped taken self.old self.new) }
        ensures memory { OnErr result (0 < length self.old.items) }
        ensures refused { IfErr result (λ fault. (fault ≡ NoMemory) × (self.new ≡ self.old)) }
    {
        if self.len() == 0 {
            return Ok(None);
        }
        refill(&mut self.reading, &mut self.written, self.undoable)?;
        match self.reading.pop() {
            Some(item) => {
                self.undoable += 1;
                Ok(Some(item))
            }
            None => Ok(None),
        }
    }

    /// Moves the first item into `to`, and settles: no pop can be undone any more. Returns whether there was an item.
    #[inline(always)]
    pub fn take_settled(&mut self, to: &mut Item) -> bool
        ensures some { result ≡ true → self.old.items ≡ to.new ∷ self.new.items }
        ensures none { result ≡ false → (self.old.items ≡ []) × (self.new.items ≡ []) }
        ensures undoable { self.new.undoable ≡ 0 }
    {
        self.settle();
        if self.reading.is_empty() {
            turn(&mut self.reading, &mut self.written);
        }
        match self.reading.pop() {
            Some(item) => {
                *to = item;
                true
            }
            None => false,
        }
    }

    /// Returns the first item, and leaves it in the queue. Returns `None` if there is none.
    pub fn front(&self) -> Option<Item>
        ensures { result ≡ slice_get self.now.items 0 }
    {
        match self.reading.last() {
            Some(item) => Some(*item),
            None => self.written.first().copied(),
        }
    }

    /// Returns the number of items.
    pub fn len(&self) -> usize
        ensures { result ≡ length self.now.items }
    {
        self.reading.len() + self.written.len()
    }

    /// Returns the items in order, and leaves them in the queue. Returns `NoMemory` if allocation fails.
    pub fn list(&self) -> Result<Vec<Item>, QueueFault>
        ensures listed { IfOk result (λ list. list.items ≡ self.now.items) }
        ensures refused { IfErr result (λ fault. fault ≡ NoMemory) }
    {
        let mut list = Vec::with_capacity(*self.reading.allocator(), self.len())?;
        list.extend_from_slice(self.reading.as_slice())?;
        list.reverse();
        list.extend_from_slice(self.written.as_slice())?;
        Ok(list)
    }

    /// Removes and returns all items, in order. Each counts as a pop that can be undone. Returns `NoMemory` if there is
    /// an item and allocation fails.
    pub fn take_all(&mut self) -> Result<Vec<Item>, QueueFault>
        ensures taken { IfOk result (λ list. list.items ≡ self.old.items) }
        ensures emptied { OnOk result (self.new ≡ emptied self.old) }
        ensures memory { OnErr result (0 < length self.old.items) }
        ensures refused { IfErr result (λ fault. (fault ≡ NoMemory) × (self.new ≡ self.old)) }
    {
        if self.len() == 0 {
            return Ok(Vec::new(*self.reading.allocator()));
        }
        let list = self.list()?;
        self.reading.reserve(self.undoable + self.written.len())?;
        self.reading.clear();
        self.written.clear();
        self.undoable += list.len();
        Ok(list)
    }

    /// Returns the number of pops that can be undone.
    pub fn undoable(&self) -> usize
        ensures { result ≡ self.now.undoable }
    {
        self.undoable
    }

    /// Removes the last item, which undoes a push at the end. The queue must have an item. If there were pops since
    /// that push, the time can be linear in the length of the queue.
    pub fn undo_push_back(&mut self)
        requires { 0 < length self.old.items }
        ensures { self.new ≡ without_back self.old }
    {
        if self.written.pop().is_none() {
            let _last = self.reading.remove(0);
        }
    }

    /// Removes the first item, which undoes a push in front. The queue must have an item. If that item was pushed at
    /// the end, the time can be linear in the length of the queue.
    pub fn undo_push_front(&mut self)
        requires { 0 < length self.old.items }
        ensures { self.new ≡ without_first_item self.old }
    {
        if self.reading.pop().is_none() {
            let _first = self.written.remove(0);
        }
    }

    /// Puts a popped item in front again, which undoes a pop and counts one pop less. A pop must be undoable.
    pub fn undo_pop(&mut self, popped: Item)
        requires { 0 < self.old.undoable }
        ensures { self.new ≡ unpopped self.old popped }
    {
        self.reading.push_reserved(popped);
        self.undoable -= 1;
    }

    /// Makes all pops permanent: none can be undone any more.
    pub fn settle(&mut self)
        ensures { self.new ≡ with_nothing_undoable self.old }
    {
        self.undoable = 0;
    }
}

// Moves the items of `written` into `reading`, which must be empty. The items of the queue and their order are
// unchanged.
#[inline(never)]
fn turn(reading: &mut Vec<Item>, written: &mut Vec<Item>)
    requires { reading.old.items ≡ [] }
    ensures filled { written.new.items ≡ [] }
    ensures same { reverse reading.new.items ≡ written.old.items }
    ensures room { vec_capacity reading.new ≡ vec_capacity written.old }
{
    mem::swap(reading, written);
    reading.reverse();
}

// Moves the items of `written` into `reading` if that is empty, with capacity for the undo of pops. The items of the
// queue and their order are unchanged, even if allocation fails.
fn refill(
    reading: &mut Vec<Item>,
    written: &mut Vec<Item>,
    undoable: usize,
) -> Result<(), QueueFault>
    requires { vec_len reading.old + undoable ≤ vec_capacity reading.old }
    ensures filled { OnOk result (reading.new.items ≡ [] → written.new.items ≡ []) }
    ensures same { reverse reading.new.items ++ written.new.items
        ≡ reverse reading.old.items ++ written.old.items }
    ensures room { vec_len reading.new + undoable ≤ vec_capacity reading.new }
    ensures refused { IfErr result (λ fault. fault ≡ NoMemory) }
{
    if !reading.is_empty() || written.is_empty() {
        return Ok(());
    }
    written.reserve(undoable)?;
    turn(reading, written);
    Ok(())
}
