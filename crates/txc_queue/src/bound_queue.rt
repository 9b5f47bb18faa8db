// A queue with a bound.
ghost use Rattle.std.specs.Prelude.{◌≡◌, ◌<◌, ◌∷◌, [], true, false, length, slice_get, IfOk, IfErr, OnOk, OnErr};
ghost use Rattle.txc_queue.specs.declared.queue_fault.QueueFault.TheVariants.{NoMemory};
ghost use Rattle.txc_queue.specs.BoundQueue.{bounded, has_no_room, holding};
ghost use Rattle.txc_queue.specs.Queue.{pushed_back, pushed_front, Popped, emptied, unpopped};
ghost use Rattle.txc_queue.specs.Queue.{with_nothing_undoable, without_first_item, without_back};
ghost use Rattle.txc_queue.specs.QueueFault.{says_full};

use crate::pair_queue::PairQueue;
use crate::queue_fault::QueueFault;
use std::alloc::Global;
use std::marker::Model;
use txc_base::Item;

/// A queue that rejects writes while it holds its bound or more. `put_back_over` can bring it over the bound. Its
/// calls take as long as those of `PairQueue`.
#[derive(Debug, Drop)]
pub struct BoundQueue {
    queue: PairQueue,
    bound: u64,
}

impl Model for BoundQueue {
    ghost use Rattle.txc_queue.specs.BoundQueue.{Bounded};

    ghost Value = { Bounded };

    ghost view = { λ bounded. record { queue = bounded.queue; bound = bounded.bound } };
}

impl BoundQueue {
    /// Returns an empty queue with this bound.
    pub fn new(alloc: Global, bound: u64) -> BoundQueue
        ensures { result ≡ bounded bound }
    {
        BoundQueue {
            queue: PairQueue::new(alloc),
            bound,
        }
    }

    /// Puts an item at the end, so that it is read last. Returns `Full` if the queue holds its bound or more, or
    /// `NoMemory` if allocation fails.
    pub fn write(&mut self, item: Item) -> Result<(), QueueFault>
        ensures full { says_full result ≡ has_no_room self.old }
        ensures written { OnOk result
            (self.new ≡ holding self.old (pushed_back self.old.queue item)) }
        ensures refused { OnErr result (self.new ≡ self.old) }
    {
        if self.is_full() {
            return Err(QueueFault::Full);
        }
        self.queue.push_back(item)
    }

    /// Puts an item in front, so that it is read next. Returns `Full` if the queue holds its bound or more, or
    /// `NoMemory` if allocation fails.
    pub fn put_back(&mut self, item: Item) -> Result<(), QueueFault>
        ensures full { says_full result ≡ has_no_room self.old }
        ensures put { OnOk result (self.new ≡ holding self.old (pushed_front self.old.queue item)) }
        ensures refused { OnErr result (self.new ≡ self.old) }
    {
        if self.is_full() {
            return Err(QueueFault::Full);
        }
        self.put_back_over(item)
    }

    /// Puts an item in front, so that it is read next, even if the queue is at its bound or over it. Returns `NoMemory`
    /// if allocation fails.
    pub fn put_back_over(&mut self, item: Item) -> Result<(), QueueFault>
        ensures put { OnOk result (self.new ≡ holding self.old (pushed_front self.old.queue item)) }
        ensures refused { IfErr result (λ fault. (fault ≡ NoMemory) × (self.new ≡ self.old)) }
    {
        self.queue.push_front(item)
    }

    /// Removes and returns the first item, or returns `None` if there is none. The pop can be undone. Returns
    /// `NoMemory` if there is an item and the allocation for the undo fails.
    pub fn pop_front(&mut self) -> Result<Option<Item>, QueueFault>
        ensures popped { IfOk result (λ taken. Popped taken self.old.queue self.new.queue) }
        ensures bound { self.new.bound ≡ self.old.bound }
        ensures memory { OnErr result (0 < length self.old.queue.items) }
        ensures refused { IfErr result (λ fault. (fault ≡ NoMemory) × (self.new ≡ self.old)) }
    {
        self.queue.pop_front()
    }

    /// Moves the first item into `to`, and settles: no pop can be undone any more. Returns whether there was an item.
    #[inline(always)]
    pub fn take_settled(&mut self, to: &mut Item) -> bool
        ensures some { result ≡ true → self.old.queue.items ≡ to.new ∷ self.new.queue.items }
        ensures none { result ≡ false → (self.old.queue.items ≡ []) × (self.new.queue.items ≡ []) }
        ensures undoable { self.new.queue.undoable ≡ 0 }
        ensures bound { self.new.bound ≡ self.old.bound }
    {
        self.queue.take_settled(to)
    }

    /// Returns the first item, and leaves it in the queue. Returns `None` if there is none.
    pub fn front(&self) -> Option<Item>
        ensures { result ≡ slice_get self.now.queue.items 0 }
    {
        self.queue.front()
    }

    /// Returns the number of items.
    pub fn len(&self) -> usize
        ensures { result ≡ length self.now.queue.items }
    {
        self.queue.len()
    }

    /// Returns the number of items from which on `write` and `put_back` return `Full`.
    pub fn bound(&self) -> u64
        ensures { result ≡ self.now.bound }
    {
        self.bound
    }

    /// Returns the items in order, and leaves them in the queue. Returns `NoMemory` if allocation fails.
    pub fn list(&self) -> Result<Vec<Item>, QueueFault>
        ensures listed { IfOk result (λ list. list.items ≡ self.now.queue.items) }
        ensures refused { IfErr result (λ fault. fault ≡ NoMemory) }
    {
        self.queue.list()
    }

    /// Removes and returns all items, in order. Each counts as a pop that can be undone. Returns `NoMemory` if there is
    /// an item and allocation fails.
    pub fn take_all(&mut self) -> Result<Vec<Item>, QueueFault>
        ensures taken { IfOk result (λ list. list.items ≡ self.old.queue.items) }
        ensures emptied { OnOk result (self.new ≡ holding self.old (emptied self.old.queue)) }
        ensures memory { OnErr result (0 < length self.old.queue.items) }
        ensures refused { IfErr result (λ fault. (fault ≡ NoMemory) × (self.new ≡ self.old)) }
    {
        self.queue.take_all()
    }

    /// Returns the number of pops that can be undone.
    pub fn undoable(&self) -> usize
        ensures { result ≡ self.now.queue.undoable }
    {
        self.queue.undoable()
    }

    /// Removes the last item, which undoes a write. The queue must have an item. If there were pops since that write,
    /// the time can be linear in the length of the queue.
    pub fn undo_push_back(&mut self)
        requires { 0 < length self.old.queue.items }
        ensures { self.new ≡ holding self.old (without_back self.old.queue) }
    {
        self.queue.undo_push_back();
    }

    /// Removes the first item, which undoes a put-back. The queue must have an item. If that item was written, the time
    /// can be linear in the length of the queue.
    pub fn undo_push_front(&mut self)
        requires { 0 < length self.old.queue.items }
        ensures { self.new ≡ holding self.old (without_first_item self.old.queue) }
    {
        self.queue.undo_push_front();
    }

    /// Puts a popped item in front again, which undoes a pop and counts one pop less. A pop must be undoable.
    pub fn undo_pop(&mut self, popped: Item)
        requires { 0 < self.old.queue.undoable }
        ensures { self.new ≡ holding self.old (unpopped self.old.queue popped) }
    {
        self.queue.undo_pop(popped);
    }

    /// Makes all pops permanent: none can be undone any more.
    pub fn settle(&mut self)
        ensures { self.new ≡ holding self.old (with_nothing_undoable self.old.queue) }
    {
        self.queue.settle();
    }

    /// Returns whether the queue holds its bound or more.
    pub fn is_full(&self) -> bool
        ensures { result ≡ has_no_room self.now }
    {
        self.len() as u64 >= self.bound
    }
}
