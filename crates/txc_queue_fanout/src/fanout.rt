// A broadcast list with a queue for each reader.
ghost use Rattle.std.specs.Prelude.{◌≡◌, ◌<◌, ◌≤◌, ◌++◌, length, take, drop, slice_get, IfOk, IfErr, OnOk, OnErr, All};
ghost use Rattle.txc_base.specs.declared.limits.TheConstants.{MAX_READERS};
ghost use Rattle.txc_base.specs.declared.stop.Stop.TheVariants.{NoReader, NoMemory};
ghost use Rattle.txc_queue.specs.Queue.{empty, with_nothing_undoable};
ghost use Rattle.txc_queue_fanout.specs.Fanout.{empty_queues, queue_at, with_queue, unread_of, front_at, popped_at};
ghost use Rattle.txc_queue_fanout.specs.Fanout.{appended_to_all};
ghost use Rattle.txc_queue_fanout.specs.Fanout.{put_back_at};
ghost use Rattle.txc_queue_fanout.specs.Fanout.{with_clone_of, without_backs, unpopped_at, without_front_at};
ghost use Rattle.txc_queue_fanout.specs.Fanout.{at_rest_all};
ghost use Rattle.txc_queue_fanout.specs.Fanout.{without_last_queue, why_refused, no_queue, no_place, no_clone};
ghost use Rattle.txc_queue_fanout.specs.Fanout.{no_opening};
ghost use Rattle.txc_queue_fanout.specs.Fanout.{UndoesAppendToAll, UndoesPop, UndoesPushFront, UndoesQueue};

use std::alloc::{AllocError, Global};
use std::marker::Model;
use txc_base::{Item, List, MAX_READERS, Stop};
use txc_queue::PairQueue;

/// A broadcast list. A contract sees it as the list of its readers' queues. A queue has the items that its reader has
/// still to read, and the number of the reader's takes that can be undone. Readers are given by their numbers, from 0
/// in the order in which they were made.
#[derive(Drop)]
pub struct Fanout {
    alloc: Global,
    queues: Vec<PairQueue>,
}

impl Model for Fanout {
    ghost use Rattle.std.specs.Prelude.{◌≤◌, List, length};
    ghost use Rattle.txc_base.specs.declared.limits.TheConstants.{MAX_READERS};
    ghost use Rattle.txc_queue.specs.Queue.{Queue};

    ghost Value = { List Queue };

    ghost view = { λ fanout. fanout.queues.items };

    ghost invariant = { λ fanout. length fanout.queues.items ≤ MAX_READERS };
}

impl Fanout {
    /// Returns a broadcast list with this many readers, which have nothing to read. Returns `TooManyReaders` above 64,
    /// or `NoMemory` if allocation fails.
    pub fn new(alloc: Global, readers: u16) -> Result<Fanout, Stop>
        ensures refused { why_refused result ≡ no_opening readers }
        ensures ok { IfOk result (λ fanout. fanout ≡ empty_queues readers) }
    {
        if u64::from(readers) > MAX_READERS {
            return Err(Stop::TooManyReaders);
        }
        let mut queues = Vec::with_capacity(alloc, readers as usize)?;
        for _ in 0..readers {
            queues.push_reserved(PairQueue::new(alloc));
        }
        Ok(Fanout { alloc, queues })
    }

    /// Returns the number of readers, at most 64.
    pub fn readers(&self) -> u16
        ensures value { result ≡ length self.now }
        ensures few { result ≤ MAX_READERS }
    {
        self.queues.len() as u16
    }

    /// Returns the item that a reader reads next, and leaves it there. Returns `None` if the reader's queue is empty,
    /// and `NoReader` if there is no such reader.
    pub fn front(&self, reader: u16) -> Result<Option<Item>, Stop>
        ensures { result ≡ front_at self.now reader }
    {
        match self.queues.get(reader as usize) {
            Some(queue) => Ok(queue.front()),
            None => Err(Stop::NoReader),
        }
    }

    /// Returns the items that each reader has still to read, in the order of the readers' numbers. Returns an error if
    /// allocation fails.
    pub fn lists(&self) -> Result<Vec<List<Item>>, AllocError>
        ensures { IfOk result (λ lists. lists.items ≡ unread_of self.now) }
    {
        let mut lists = Vec::new(self.alloc);
        for queue in self.queues.iter() {
            let Ok(list) = queue.list() else {
                return Err(AllocError);
            };
            lists.push(List::from_vec(list))?;
        }
        Ok(lists)
    }

    /// Removes and returns the next item of a reader, or returns `None` if the reader's queue is empty. The take can be
    /// undone. Returns `NoReader` if there is no such reader. Returns `NoMemory` if there is an item and the allocation
    /// for the undo fails.
    pub fn take(&mut self, reader: u16) -> Result<Option<Item>, Stop>
        ensures refused { why_refused result ≡ no_queue self.old reader }
        ensures value { IfOk result (λ taken. taken ≡ slice_get (queue_at self.old reader).items 0) }
        ensures taken { OnOk result (self.new ≡ popped_at self.old reader) }
        ensures memory { IfErr result (λ stop. stop ≡ NoMemory → 0 < length (queue_at self.old reader).items) }
        ensures err { OnErr result (self.new ≡ self.old) }
    {
        let queue_index = self.queue_index(reader)?;
        let Ok(taken) = self.queues[queue_index].pop_front() else {
            return Err(Stop::NoMemory);
        };
        Ok(taken)
    }

    /// Writes an item at the end of every reader's queue. Returns an error if allocation fails.
    pub fn append(&mut self, item: Item) -> Result<(), AllocError>
        ensures ok { OnOk result (self.new ≡ appended_to_all self.old item) }
        ensures err { OnErr result (self.new ≡ self.old) }
    {
        let count = push_to_each(self.queues.as_mut_slice(), item);
        if count < self.queues.len() {
            take_back(self.queues.as_mut_slice(), count);
            return Err(AllocError);
        }
        Ok(())
    }

    /// Puts an item in front of one reader's queue, so that it is read next. Returns `NoReader` if there is no such
    /// reader, or `NoMemory` if allocation fails.
    pub fn put_back(&mut self, reader: u16, item: Item) -> Result<(), Stop>
        ensures refused { why_refused result ≡ no_queue self.old reader }
        ensures ok { OnOk result (self.new ≡ put_back_at self.old reader item) }
        ensures err { OnErr result (self.new ≡ self.old) }
    {
        let queue_index = self.queue_index(reader)?;
        let Ok(()) = self.queues[queue_index].push_front(item) else {
            return Err(Stop::NoMemory);
        };
        Ok(())
    }

    /// Makes a reader that gets the items that are written from then on, and returns its number. Returns
    /// `TooManyReaders` if there are 64 readers already, or `NoMemory` if allocation fails.
    pub fn dup(&mut self) -> Result<u16, Stop>
        ensures refused { why_refused result ≡ no_place self.old }
        ensures number { IfOk result (λ number. number ≡ length self.old) }
        ensures ok { OnOk result (self.new ≡ with_queue self.old empty) }
        ensures err { OnErr result (self.new ≡ self.old) }
    {
        let number = self.next_number()?;
        self.queues.push(PairQueue::new(self.alloc))?;
        Ok(number)
    }

    /// Makes a reader that begins with all items that this reader has to read, and returns its number. The new reader
    /// has no take to undo. Returns `NoReader` if there is no such reader, or `TooManyReaders` if there are 64 readers
    /// already. Returns `NoMemory` if allocation fails.
    pub fn clone_reader(&mut self, reader: u16) -> Result<u16, Stop>
        ensures refused { why_refused result ≡ no_clone self.old reader }
        ensures number { IfOk result (λ number. number ≡ length self.old) }
        ensures ok { OnOk result (self.new ≡ with_clone_of self.old reader) }
        ensures err { OnErr result (self.new ≡ self.old) }
    {
        let queue = &self.queues[self.queue_index(reader)?];
        let number = self.next_number()?;
        let clone = clone_queue(queue, self.alloc)?;
        self.queues.push(clone)?;
        Ok(number)
    }

    // Returns the index of a reader's queue, or `NoReader` if there is no such reader.
    fn queue_index(&self, reader: u16) -> Result<usize, Stop>
        ensures refused { why_refused result ≡ no_queue self.now reader }
        ensures ok { IfOk result (λ queue_index. (queue_index ≡ reader) × (queue_index < length self.now)) }
        ensures err { IfErr result (λ stop. stop ≡ NoReader) }
    {
        let queue_index = reader as usize;
        if queue_index >= self.queues.len() {
            return Err(Stop::NoReader);
        }
        Ok(queue_index)
    }

    // Returns the number that the next reader gets, or `TooManyReaders` if there are 64 readers already.
    fn next_number(&self) -> Result<u16, Stop>
        ensures refused { why_refused result ≡ no_place self.now }
        ensures ok { IfOk result (λ number. number ≡ length self.now) }
        ensures few { OnOk result (length self.now < MAX_READERS) }
        ensures err { OnErr result (MAX_READERS ≤ length self.now) }
    {
        let number = self.readers();
        if u64::from(number) >= MAX_READERS {
            return Err(Stop::TooManyReaders);
        }
        Ok(number)
    }

    /// Undoes the last append: removes the last item of each queue. Each queue must have an item. If there were takes
    /// since that append, the time can be linear in the length of the queues.
    pub fn undo_append(&mut self)
        requires { All (λ queue. 0 < length queue.items) self.old }
        ensures value { self.new ≡ without_backs self.old }
        ensures undone { UndoesAppendToAll self.old self.new }
    {
        let all = self.queues.len();
        take_back(self.queues.as_mut_slice(), all);
    }

    /// Undoes a reader's take of this item: puts it in front of that reader's queue again, and counts one take less.
    /// There must be such a reader, with a take that can be undone.
    pub fn undo_take(&mut self, reader: u16, item: Item)
        requires there { reader < length self.old }
        requires counted { 0 < (queue_at self.old reader).undoable }
        ensures value { self.new ≡ unpopped_at self.old reader item }
        ensures undone { UndoesPop self.old reader item self.new }
    {
        self.queues[reader as usize].undo_pop(item);
    }

    /// Undoes the last put-back to a reader: removes the first item of its queue. The queue must have an item. If that
    /// item was written, the time can be linear in the length of the queue.
    pub fn undo_put_back(&mut self, reader: u16)
        requires there { reader < length self.old }
        requires some { 0 < length (queue_at self.old reader).items }
        ensures value { self.new ≡ without_front_at self.old reader }
        ensures undone { UndoesPushFront self.old reader self.new }
    {
        self.queues[reader as usize].undo_push_front();
    }

    /// Removes the last reader. There must be one.
    pub fn undo_reader(&mut self)
        requires { 0 < length self.old }
        ensures value { self.new ≡ without_last_queue self.old }
        ensures undone { UndoesQueue self.old self.new }
    {
        self.queues.pop();
    }

    /// Makes all takes permanent: none can be undone any more.
    pub fn settle(&mut self)
        ensures { self.new ≡ at_rest_all self.old }
    {
        for queue in self.queues.iter_mut() {
            queue.settle();
        }
    }
}

// Puts an item at the end of each queue, up to the first queue for which allocation fails. Returns the number of queues
// that have the item.
fn push_to_each(queues: &mut [PairQueue], item: Item) -> usize
    ensures few { result ≤ length queues.old }
    ensures pushed { queues.new ≡ appended_to_all (take result queues.old) item ++ drop result queues.old }
{
    for queue_index in 0..queues.len() {
        if queues[queue_index].push_back(item).is_err() {
            return queue_index;
        }
    }
    queues.len()
}

// Removes the last item of each of the first `count` queues. Each of them must have an item.
fn take_back(queues: &mut [PairQueue], count: usize)
    requires few { count ≤ length queues.old }
    requires some { All (λ queue. 0 < length queue.items) (take count queues.old) }
    ensures { queues.new ≡ without_backs (take count queues.old) ++ drop count queues.old }
{
    for queue_index in 0..count {
        queues[queue_index].undo_push_back();
    }
}

// Returns a queue of the same items, with no pop to undo. Returns `NoMemory` if allocation fails.
fn clone_queue(queue: &PairQueue, alloc: Global) -> Result<PairQueue, Stop>
    ensures ok { IfOk result (λ clone. clone ≡ with_nothing_undoable queue.now) }
    ensures err { IfErr result (λ stop. stop ≡ NoMemory) }
{
    let Ok(items) = queue.list() else {
        return Err(Stop::NoMemory);
    };
    let mut clone = PairQueue::new(alloc);
    for item in items.iter() {
        let Ok(()) = clone.push_back(*item) else {
            return Err(Stop::NoMemory);
        };
    }
    Ok(clone)
}
