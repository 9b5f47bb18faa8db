// The items of a channel.
ghost use Rattle.std.specs.Prelude.{◌≡◌, ◌≢◌, ◌+◌, ◌<◌, ◌≤◌, ◌↔◌, ℕ, true, false, ◌&&◌, nat_le, List, [], ◌∷◌};
ghost use Rattle.std.specs.Prelude.{◌++◌, length, map, drop, replicate, slice_get, slice_index_or, Ok, Some, None};
ghost use Rattle.std.specs.Prelude.{is_some, if◌then◌else◌, IfSome, IsTrue, IfOk, IfErr, OnOk, OnErr};
ghost use Rattle.txc_base.specs.Kinds.{is_bounded, is_broadcast};
ghost use Rattle.txc_base.specs.Channel.{opening};
ghost use Rattle.txc_base.specs.declared.limits.TheConstants.{MAX_READERS};
ghost use Rattle.txc_chan.specs.Limits.{declared_fault};
ghost use Rattle.txc_cast.specs.Reader.{IsWritten, IsBack};
ghost use Rattle.txc_cast.specs.Sights.{IsOf};
ghost use Rattle.txc_chan.specs.Body.{is_cast, is_limited, bound_of, lists_of, slots_of, shelf_of, is_shelved};
ghost use Rattle.txc_chan.specs.Body.{undoable_at, NothingUndoable, IsFresh, Keeps, SameUndoable, HasWrittenAll};
ghost use Rattle.txc_chan.specs.BodyCalls.{front_in, is_at_bound, list_at, lists_with, TakesFrom, MoreUndoable};
ghost use Rattle.txc_chan.specs.BodyCalls.{LessUndoable, CloneRefused, CanUndoWrite, CanUndoTake, CanUndoPutBack};
ghost use Rattle.txc_chan.specs.BodyCalls.{ReadsIn, HasReader, IsNextReader, ChangesLists, stop_of};
ghost use Rattle.txc_base_laws.specs.Undone.{front_of};
ghost use Rattle.txc_base.specs.Operation.{is_plain_bounded};

use crate::decl::Decl;
use std::alloc::{AllocError, Global};
use txc_base::{Item, Kind, List, MAX_READERS, Stop};
use txc_cast::{Append, Cast, CastFault, Shelf, Sight};
use txc_queue::{BoundQueue, PairQueue, QueueFault};
use txc_queue_fanout::Fanout;

/// The items of a channel. The declaration of the channel says its kind, and whether it can be closed.
#[derive(Drop)]
pub(crate) enum Body {
    Queue(PairQueue),
    Bounded(BoundQueue),
    /// A broadcast list on a shelf, which keeps all items and can be read without a lock.
    Shelved(Cast),
    /// A broadcast list with a queue of unread items for each reader.
    Fanned(Fanout),
}

/// Writes the four arms of an operation. Each arm returns by itself, because a result that the arms share would be
/// copied once more.
macro_rules! by_variant {
    ($body:expr, $queue:ident => $on_queue:expr, $bounded:ident => $on_bounded:expr, $cast:ident => $on_cast:expr,
        $fanout:ident => $on_fanout:expr) => {
        match $body {
            Body::Queue($queue) => return $on_queue,
            Body::Bounded($bounded) => return $on_bounded,
            Body::Shelved($cast) => return $on_cast,
            Body::Fanned($fanout) => return $on_fanout,
        }
    };
}

impl Body {
    /// Proves that a broadcast list has a slot for each written item, and a queue has none. Does nothing at run time.
    pub(crate) fn show(&self)
        ensures { (items : _) → HasWrittenAll self.now items
            → length (slots_of self.now items) ≡ (if is_cast self.now then length items else 0) }
    {
        by_variant!(self, _queue => {}, _bounded => {}, cast => cast.show(), _fanout => {})
    }

    /// Returns the bound, or 0 if the kind has none.
    pub(crate) fn bound(&self) -> u64
        ensures { result ≡ bound_of self.now }
    {
        by_variant!(self, _queue => 0, queue => queue.bound(), _cast => 0, _fanout => 0)
    }

    /// Returns the number of readers.
    pub(crate) fn readers(&self) -> u16
        ensures { result ≡ length (lists_of self.now) }
    {
        by_variant!(self, _queue => 1, _bounded => 1, cast => cast.readers(), fanout => fanout.readers())
    }

    /// Returns whether there is a reader with this number.
    #[tactic(auto, using(crate::proofs::BodyLemmas::place_rules))]
    pub(crate) fn has_reader(&self, reader: u16) -> bool
        ensures there { result ≡ true → slice_get (lists_of self.now) reader ≡ Some (list_at self.now reader) }
        ensures missing { result ≡ false → slice_get (lists_of self.now) reader ≡ None }
    {
        reader < self.readers()
    }

    /// Returns whether there are as many readers as are permitted.
    pub(crate) fn is_at_reader_limit(&self) -> bool
        ensures { result ≡ nat_le MAX_READERS (length (lists_of self.now)) }
    {
        u64::from(self.readers()) >= MAX_READERS
    }

    /// Returns the number of items in a queue.
    pub(crate) fn len(&self) -> usize
        requires { is_cast self.now ≡ false }
        ensures { result ≡ length (slice_index_or (lists_of self.now) 0 []) }
    {
        by_variant!(self, 
            queue => queue.len(),
            queue => queue.len(),
            _cast => unreachable!(),
            _fanout => unreachable!())
    }

    /// Returns the item that a reader reads next, or `None` if there is nothing. Returns `NoReader` if there is no such
    /// reader.
    pub(crate) fn front(&self, reader: u16) -> Result<Option<Item>, Stop>
        requires { is_cast self.now ≡ false → reader ≡ 0 }
        ensures { result ≡ front_in (slice_get (lists_of self.now) reader) }
    {
        by_variant!(self,
            queue => Ok(queue.front()),
            queue => Ok(queue.front()),
            cast => cast.front(reader).map_err(stop_for),
            fanout => fanout.front(reader))
    }

    /// Returns whether a write must wait because the bound is reached.
    pub(crate) fn is_full(&self) -> bool
        ensures { result ≡ (is_limited self.now && is_at_bound self.now) }
    {
        by_variant!(self, _queue => false, queue => queue.is_full(), _cast => false, _fanout => false)
    }

    /// Returns whether a put-back must wait because the bound of a `TBQueue` is reached, if this is the channel's kind.
    pub(crate) fn put_back_must_wait(&self, kind: Kind) -> bool
        requires { is_limited self.now ≡ is_bounded kind }
        ensures { result ≡ (is_plain_bounded kind && is_at_bound self.now) }
    {
        matches!(kind, Kind::Bounded) && self.is_full()
    }

    /// Writes an item after all others, for every reader. Returns `AllocError` if allocation fails. Blocks only if the
    /// handle permits it, on a broadcast list.
    #[tactic(auto, using(crate::proofs::BodyLemmas::cast_rules, crate::proofs::FanoutLemmas::fanout_rules))]
    pub(crate) fn write<R: Append>(&mut self, rt: &R, item: Item) -> Result<(), AllocError>
        requires written { IsWritten item }
        requires room { (is_limited self.old && is_at_bound self.old) ≡ false }
        ensures lists { OnOk result (lists_of self.new ≡ map (λ list. list ++ item ∷ []) (lists_of self.old)) }
        ensures same { OnErr result (self.new ≡ self.old) }
        ensures keeps { Keeps self.old self.new }
        ensures room { SameUndoable self.old self.new }
        ensures items { (items : _) → OnOk result (HasWrittenAll self.old items
            → HasWrittenAll self.new (items ++ item ∷ [])) }
    {
        by_variant!(self,
            queue => queue.push_back(item).map_err(refused),
            queue => match queue.write(item) {
                Ok(()) => Ok(()),
                Err(QueueFault::Full) => unreachable!(),
                Err(QueueFault::NoMemory) => Err(AllocError),
            },
            cast => rt.append_to(cast, item).map_err(cast_refused),
            fanout => fanout.append(item))
    }

    /// Takes a reader's next item and returns it, or `None` if there is nothing. Returns `NoReader` if there is no such
    /// reader, and `NoMemory` if the allocation for the undo fails.
    #[tactic(auto, using(crate::proofs::BodyLemmas::cast_rules, crate::proofs::FanoutLemmas::fanout_rules))]
    pub(crate) fn take(&mut self, reader: u16) -> Result<Option<Item>, Stop>
        requires { is_cast self.old ≡ false → reader ≡ 0 }
        ensures ok { IfOk result (λ taken. TakesFrom taken self.old reader self.new) }
        ensures err { IfErr result (λ e. e ≢ Stop.NoMemory → (e ≡ Stop.NoReader)
            × (slice_get (lists_of self.old) reader ≡ None)) }
        ensures same { OnErr result (self.new ≡ self.old) }
        ensures keeps { Keeps self.old self.new }
        ensures room { IfOk result (λ taken. MoreUndoable taken self.old reader self.new) }
        ensures items { (items : _) → HasWrittenAll self.old items → HasWrittenAll self.new items }
    {
        by_variant!(self,
            queue => queue.pop_front().map_err(stopped),
            queue => queue.pop_front().map_err(stopped),
            cast => cast.take(reader).map_err(stop_for),
            fanout => fanout.take(reader))
    }

    /// Moves a reader's first item into `to`, and makes all changes final: no take can be undone any more. Returns
    /// whether there was an item. Returns `NoReader` if there is no such reader, and `NoMemory` if allocation fails.
    pub(crate) fn take_settled(&mut self, reader: u16, to: &mut Item) -> Result<bool, Stop>
        requires { is_cast self.old ≡ false → reader ≡ 0 }
        ensures some { IfOk result (λ found. found ≡ true
            → ReadsIn (Some to.new) (lists_of self.old) reader (lists_of self.new)) }
        ensures none { IfOk result (λ found. found ≡ false
            → ReadsIn None (lists_of self.old) reader (lists_of self.new)) }
        ensures err { IfErr result (λ e. e ≢ Stop.NoMemory → (e ≡ Stop.NoReader)
            × (slice_get (lists_of self.old) reader ≡ None)) }
        ensures lists { OnErr result (lists_of self.new ≡ lists_of self.old) }
        ensures keeps { Keeps self.old self.new }
        ensures room { NothingUndoable self.new }
        ensures items { (items : _) → HasWrittenAll self.old items → HasWrittenAll self.new items }
    {
        // Only for speed: a queue takes and settles in one call, and allocates nothing for an undo.
        match self {
            Body::Queue(queue) => return Ok(queue.take_settled(to)),
            Body::Bounded(queue) => return Ok(queue.take_settled(to)),
            _ => {}
        }
        let taken = self.take(reader);
        self.settle();
        match taken {
            Ok(Some(item)) => {
                *to = item;
                Ok(true)
            }
            Ok(None) => Ok(false),
            Err(stop) => Err(stop),
        }
    }

    /// Puts an item in front of a reader's list. Returns `AllocError` if allocation fails.
    #[tactic(auto, using(crate::proofs::BodyLemmas::reader_rules, crate::proofs::FanoutLemmas::fanout_rules))]
    pub(crate) fn put_back(&mut self, reader: u16, item: Item) -> Result<(), AllocError>
        requires back { IsBack item }
        requires there { slice_get (lists_of self.old) reader ≡ Some (list_at self.old reader) }
        ensures lists { OnOk result (lists_of self.new ≡ lists_with self.old reader (item ∷ list_at self.old reader)) }
        ensures same { OnErr result (self.new ≡ self.old) }
        ensures only { ChangesLists self.old self.new }
    {
        by_variant!(self,
            queue => queue.push_front(item).map_err(refused),
            queue => queue.put_back_over(item).map_err(refused),
            cast => cast.put_back(reader, item).map_err(cast_refused),
            fanout => fanout.put_back(reader, item).map_err(fanout_refused))
    }

    /// Takes all items of a queue and returns them, in order. Each counts as a take that can be undone. Returns
    /// `AllocError` if allocation fails.
    pub(crate) fn take_all(&mut self) -> Result<Vec<Item>, AllocError>
        requires { is_cast self.old ≡ false }
        ensures ok { IfOk result (λ all. lists_of self.old ≡ all.items ∷ []) }
        ensures lists { OnOk result (lists_of self.new ≡ [] ∷ []) }
        ensures same { OnErr result (self.new ≡ self.old) }
        ensures keeps { Keeps self.old self.new }
        ensures room { IfOk result (λ all. undoable_at self.new 0 ≡ undoable_at self.old 0 + length all.items) }
    {
        by_variant!(self,
            queue => queue.take_all().map_err(refused),
            queue => queue.take_all().map_err(refused),
            _cast => unreachable!(),
            _fanout => unreachable!())
    }

    /// Makes a reader with nothing to read and returns its number. Returns `TooManyReaders` if there are 64 readers,
    /// and `NoMemory` if allocation fails.
    #[tactic(auto, using(crate::proofs::BodyLemmas::cast_rules, crate::proofs::FanoutLemmas::fanout_rules))]
    pub(crate) fn dup(&mut self) -> Result<u16, Stop>
        requires { is_cast self.old ≡ true }
        ensures number { IfOk result (λ number. IsNextReader self.old number) }
        ensures lists { OnOk result (lists_of self.new ≡ lists_of self.old ++ [] ∷ []) }
        ensures err { IfErr result (λ e. e ≢ Stop.NoMemory → (e ≡ Stop.TooManyReaders)
            × (MAX_READERS ≤ length (lists_of self.old))) }
        ensures same { OnErr result (self.new ≡ self.old) }
        ensures only { ChangesLists self.old self.new }
    {
        by_variant!(self,
            _queue => unreachable!(),
            _bounded => unreachable!(),
            cast => cast.dup().map_err(stop_for),
            fanout => fanout.dup())
    }

    /// Makes a reader with the same unread items as this one and returns its number. Returns `NoReader` if there is no
    /// such reader, `TooManyReaders` if there are 64 readers, and `NoMemory` if allocation fails.
    #[tactic(auto, using(crate::proofs::BodyLemmas::reader_rules, crate::proofs::FanoutLemmas::fanout_rules))]
    pub(crate) fn clone_reader(&mut self, reader: u16) -> Result<u16, Stop>
        requires { is_cast self.old ≡ true }
        ensures number { IfOk result (λ number. IsNextReader self.old number) }
        ensures found { OnOk result (HasReader self.old reader) }
        ensures lists { OnOk result (lists_of self.new ≡ lists_of self.old ++ list_at self.old reader ∷ []) }
        ensures err { IfErr result (λ e. e ≢ Stop.NoMemory → CloneRefused e (lists_of self.old) reader) }
        ensures same { OnErr result (self.new ≡ self.old) }
        ensures only { ChangesLists self.old self.new }
    {
        by_variant!(self,
            _queue => unreachable!(),
            _bounded => unreachable!(),
            cast => cast.clone_reader(reader).map_err(stop_for),
            fanout => fanout.clone_reader(reader))
    }

    /// Undoes the last write.
    #[tactic(auto, using(crate::proofs::BodyLemmas::cast_rules, crate::proofs::FanoutLemmas::fanout_rules))]
    pub(crate) fn undo_write(&mut self)
        requires { CanUndoWrite self.old }
        ensures lists { lists_of self.new ≡ map front_of (lists_of self.old) }
        ensures keeps { Keeps self.old self.new }
        ensures room { SameUndoable self.old self.new }
        ensures items { (items : _) → HasWrittenAll self.old items → HasWrittenAll self.new (front_of items) }
    {
        by_variant!(self,
            queue => queue.undo_push_back(),
            queue => queue.undo_push_back(),
            cast => cast.undo_append(),
            fanout => fanout.undo_append())
    }

    /// Undoes a reader's take of this item.
    #[tactic(auto, using(crate::proofs::BodyLemmas::cast_rules, crate::proofs::FanoutLemmas::fanout_rules))]
    pub(crate) fn undo_take(&mut self, reader: u16, item: Item)
        requires { CanUndoTake self.old reader item }
        ensures lists { lists_of self.new ≡ lists_with self.old reader (item ∷ list_at self.old reader) }
        ensures keeps { Keeps self.old self.new }
        ensures room { LessUndoable item self.old reader self.new }
        ensures items { (items : _) → HasWrittenAll self.old items → HasWrittenAll self.new items }
    {
        by_variant!(self,
            queue => queue.undo_pop(item),
            queue => queue.undo_pop(item),
            cast => cast.undo_take(reader, item),
            fanout => fanout.undo_take(reader, item))
    }

    /// Undoes the last put-back to a reader.
    #[tactic(auto, using(crate::proofs::BodyLemmas::cast_rules, crate::proofs::FanoutLemmas::fanout_rules))]
    pub(crate) fn undo_put_back(&mut self, reader: u16)
        requires { CanUndoPutBack self.old reader }
        ensures lists { lists_of self.new ≡ lists_with self.old reader (drop 1 (list_at self.old reader)) }
        ensures only { ChangesLists self.old self.new }
    {
        by_variant!(self,
            queue => queue.undo_push_front(),
            queue => queue.undo_push_front(),
            cast => cast.undo_put_back(reader),
            fanout => fanout.undo_put_back(reader))
    }

    /// Removes the last reader.
    #[tactic(auto, using(crate::proofs::BodyLemmas::cast_rules, crate::proofs::FanoutLemmas::fanout_rules))]
    pub(crate) fn undo_reader(&mut self)
        requires broadcast { is_cast self.old ≡ true }
        requires there { 0 < length (lists_of self.old) }
        ensures lists { lists_of self.new ≡ front_of (lists_of self.old) }
        ensures keeps { Keeps self.old self.new }
        ensures room { (reader : ℕ) → reader + 1 < length (lists_of self.old)
            → undoable_at self.new reader ≡ undoable_at self.old reader }
        ensures items { (items : _) → HasWrittenAll self.old items → HasWrittenAll self.new items }
    {
        by_variant!(self,
            _queue => unreachable!(),
            _bounded => unreachable!(),
            cast => cast.undo_reader(),
            fanout => fanout.undo_reader())
    }

    /// Makes all changes final: none of them can be undone, and no room is reserved for undoing them.
    #[tactic(auto, using(crate::proofs::BodyLemmas::cast_rules, crate::proofs::FanoutLemmas::fanout_rules))]
    pub(crate) fn settle(&mut self)
        ensures lists { lists_of self.new ≡ lists_of self.old }
        ensures slots { (items : _) → slots_of self.new items ≡ slots_of self.old items }
        ensures keeps { Keeps self.old self.new }
        ensures items { (items : _) → HasWrittenAll self.old items → HasWrittenAll self.new items }
        ensures room { NothingUndoable self.new }
    {
        by_variant!(self,
            queue => queue.settle(),
            queue => queue.settle(),
            cast => cast.settle(),
            fanout => fanout.settle())
    }

    /// Returns the unread items of each reader, by reader number. Returns `AllocError` if allocation fails.
    pub(crate) fn lists(&self, alloc: Global) -> Result<Vec<List<Item>>, AllocError>
        ensures { IfOk result (λ lists. lists.items ≡ lists_of self.now) }
    {
        by_variant!(self,
            queue => single_list(alloc, queue.list().map_err(refused)?),
            queue => single_list(alloc, queue.list().map_err(refused)?),
            cast => cast.lists(),
            fanout => fanout.lists())
    }

    /// Returns whether the written item number `place` is at the slot of this sight, which must be of this list's
    /// shelf. Returns `false` for a queue. A broadcast list must be on a shelf.
    pub(crate) fn agrees(&self, place: usize, sight: &Sight) -> bool
        requires shelved { is_cast self.now ≡ true → is_shelved self.now ≡ true }
        requires of { IfSome (shelf_of self.now) (λ shelf. IsOf shelf sight.now) }
        ensures slot { (items : _) → IsTrue result
            ↔ (slice_get (slots_of self.now items) place ≡ Some sight.now.slot) }
        ensures item { (items : _) → HasWrittenAll self.now items → IsTrue result
            → slice_get items place ≡ Some sight.now.item }
    {
        by_variant!(self,
            _queue => false,
            _bounded => false,
            cast => cast.agrees(place, sight),
            _fanout => unreachable!())
    }

    /// Returns the slot of each written item, in order; a queue has no slots. A broadcast list must be on a shelf.
    /// Returns `AllocError` if allocation fails.
    pub(crate) fn slots(&self, alloc: Global) -> Result<Vec<usize>, AllocError>
        requires { is_cast self.now ≡ true → is_shelved self.now ≡ true }
        ensures { (items : _) → IfOk result (λ slots. slots.items ≡ slots_of self.now items) }
    {
        by_variant!(self,
            _queue => Ok(Vec::new(alloc)),
            _bounded => Ok(Vec::new(alloc)),
            cast => cast.slots(),
            _fanout => unreachable!())
    }
}

// The error of a queue that is not full: allocation failed. This is a function and not a closure, because a closure
// would be compiled once for each use.
fn refused(_fault: QueueFault) -> AllocError {
    AllocError
}

// Returns the stop for an error of a queue.
fn stopped(_fault: QueueFault) -> Stop
    ensures { result ≡ Stop.NoMemory }
{
    Stop::NoMemory
}

// The error of an append, or of a put-back to an existing reader, on a shelf: allocation failed.
fn cast_refused(_fault: CastFault) -> AllocError {
    AllocError
}

// The error of a put-back to the queue of an existing reader: allocation failed.
fn fanout_refused(_stop: Stop) -> AllocError {
    AllocError
}

// Returns the stop for an error of a broadcast list on a shelf.
fn stop_for(fault: CastFault) -> Stop
    ensures { result ≡ stop_of fault }
{
    match fault {
        CastFault::NoReader => Stop::NoReader,
        CastFault::TooManyReaders => Stop::TooManyReaders,
        CastFault::NoMemory => Stop::NoMemory,
    }
}

/// Returns the lists of a queue: this one. Returns `AllocError` if allocation fails.
fn single_list(alloc: Global, list: Vec<Item>) -> Result<Vec<List<Item>>, AllocError>
    ensures { IfOk result (λ lists. lists.items ≡ list.items ∷ []) }
{
    let mut lists = Vec::new(alloc);
    lists.push(List::from_vec(list))?;
    Ok(lists)
}

/// Makes the empty body of a channel with this declaration. A broadcast channel gets a shelf if `shelves` is true.
/// Returns the body and its shelf, or `AllocError` if allocation fails.
#[tactic(auto, using(crate::proofs::BodyLemmas::opening_rules))]
pub(crate) fn make_body(
    alloc: Global,
    decl: Decl,
    shelves: bool,
) -> Result<(Body, Option<Shelf>), AllocError>
    requires { declared_fault decl.kind decl.bound decl.readers ≡ None }
    ensures cast { IfOk result (λ made. is_cast made.0 ≡ is_broadcast decl.kind) }
    ensures limited { IfOk result (λ made. is_limited made.0 ≡ is_bounded decl.kind) }
    ensures bound { IfOk result (λ made. bound_of made.0 ≡ (opening decl.kind decl.bound decl.readers).bound) }
    ensures lists { IfOk result (λ made. lists_of made.0 ≡ (opening decl.kind decl.bound decl.readers).lists) }
    ensures slots { IfOk result (λ made. slots_of made.0 [] ≡ []) }
    ensures shelf { IfOk result (λ made. shelf_of made.0 ≡ made.1) }
    ensures shelved { IfOk result (λ made. is_some made.1 ≡ (shelves && is_broadcast decl.kind)) }
    ensures fresh { IfOk result (λ made. IsFresh made.0) }
{
    match decl.kind {
        Kind::Queue | Kind::MQueue => Ok((Body::Queue(PairQueue::new(alloc)), None)),
        Kind::Bounded | Kind::BMQueue => {
            Ok((Body::Bounded(BoundQueue::new(alloc, decl.bound)), None))
        }
        Kind::Cast | Kind::MCast => make_cast(alloc, decl.readers as u16, shelves),
    }
}

// Makes an empty broadcast list for this many readers, at most 64. It is on a shelf if `shelves` is true. Returns the
// list and its shelf, or `AllocError` if allocation fails.
#[tactic(auto, using(crate::proofs::BodyLemmas::opening_rules))]
fn make_cast(
    alloc: Global,
    readers: u16,
    shelves: bool,
) -> Result<(Body, Option<Shelf>), AllocError>
    requires { readers ≤ MAX_READERS }
    ensures cast { IfOk result (λ made. is_cast made.0 ≡ true) }
    ensures limited { IfOk result (λ made. is_limited made.0 ≡ false) }
    ensures bound { IfOk result (λ made. bound_of made.0 ≡ 0) }
    ensures lists { IfOk result (λ made. lists_of made.0 ≡ replicate readers []) }
    ensures slots { IfOk result (λ made. slots_of made.0 [] ≡ []) }
    ensures shelf { IfOk result (λ made. shelf_of made.0 ≡ made.1) }
    ensures shelved { IfOk result (λ made. is_some made.1 ≡ shelves) }
    ensures fresh { IfOk result (λ made. IsFresh made.0) }
{
    if shelves {
        let Ok((cast, shelf)) = Cast::new(alloc, readers) else {
            return Err(AllocError);
        };
        return Ok((Body::Shelved(cast), Some(shelf)));
    }
    match Fanout::new(alloc, readers) {
        Ok(fanout) => Ok((Body::Fanned(fanout), None)),
        Err(_) => Err(AllocError),
    }
}
