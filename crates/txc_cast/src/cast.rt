// A broadcast list.
ghost use Rattle.std.specs.Prelude.{◌≡◌, ◌<◌, ◌≤◌, ◌↔◌, length, slice_get, Some, None, IfOk, OnOk, OnErr, IsTrue};
ghost use Rattle.txc_base.specs.declared.limits.TheConstants.{MAX_READERS};
ghost use Rattle.txc_cast.specs.Fault.{refused};
ghost use Rattle.txc_cast.specs.Reader.{fresh, IsWritten, IsBack};
ghost use Rattle.txc_cast.specs.Broadcast.{unwritten, reader_at, read_of, with_new_reader, Appends, first_of, taken_at};
ghost use Rattle.txc_cast.specs.Broadcast.{given_back, cloned, unappended, untaken, ungiven, unbegun, all_settled};
ghost use Rattle.txc_cast.specs.Broadcast.{reader_refusal, place_refusal, clone_refusal, opening_refusal, CanUnappend};
ghost use Rattle.txc_cast.specs.Broadcast.{CanUntakeAt, CanUngiveAt, IsWell, UndoesAppend, UndoesTake, UndoesPutBack};
ghost use Rattle.txc_cast.specs.Broadcast.{UndoesReader};
ghost use Rattle.txc_cast.specs.Sights.{IsOf};

use crate::cursor::Cursor;
use crate::fault::CastFault;
use crate::shelf::{Items, Shelf};
use crate::sight::Sight;
use boxcar::Pushed;
use std::alloc::{AllocError, Global};
use std::marker::Model;
use std::sync::{Arc, Wait};
use txc_base::{Item, List, MAX_READERS, Origin};

/// A broadcast list. A contract sees the items written, the slot of each item, the readers and the shelf. A reader has
/// the items that it has still to read, and a count of its takes of put-backs that can be undone. Readers are given by
/// their numbers, from 0 in the order in which they were made.
#[derive(Drop)]
pub struct Cast {
    alloc: Global,
    items: Arc<Items, Global>,
    // The token of each item that counts as written, in order.
    tokens: Vec<Pushed<Item>>,
    cursors: Vec<Cursor>,
}

impl Model for Cast {
    ghost use Rattle.std.specs.Arc.{arc_value};
    ghost use Rattle.txc_cast.specs.Broadcast.{Broadcast};
    ghost use Rattle.txc_cast.specs.Kept.{broadcast, IsSoundCast};

    ghost Value = { Broadcast };

    ghost view = { λ cast. broadcast (arc_value cast.items) cast.tokens.items cast.cursors.items };

    ghost invariant = { λ cast. IsSoundCast (arc_value cast.items) cast.tokens.items cast.cursors.items };
}

impl Cast {
    /// Returns an empty broadcast list with this many readers, and its shelf. Returns `TooManyReaders` above 64, or
    /// `NoMemory` if allocation fails.
    pub fn new(alloc: Global, readers: u16) -> Result<(Cast, Shelf), CastFault>
        ensures refused { refused result ≡ opening_refusal readers }
        ensures ok { IfOk result (λ made. made.0 ≡ unwritten readers made.1) }
    {
        if u64::from(readers) > MAX_READERS {
            return Err(CastFault::TooManyReaders);
        }
        let shelf = Shelf::new(alloc)?;
        let mut cast = Cast {
            alloc,
            items: Arc::try_clone(&shelf.items)?,
            tokens: Vec::new(alloc),
            cursors: Vec::new(alloc),
        };
        for _ in 0..readers {
            cast.dup()?;
        }
        Ok((cast, shelf))
    }

    /// States in its contract what is true of every broadcast list: each reader has put-backs, and after them a tail of
    /// the items written. Does nothing.
    pub fn show(&self)
        ensures { IsWell self.now }
    {
        // Only for the proof: opens the invariant of the type.
        let _fields = &self.cursors;
    }

    /// Returns the number of readers, at most 64.
    pub fn readers(&self) -> u16
        ensures value { result ≡ length self.now.readers }
        ensures few { result ≤ MAX_READERS }
    {
        self.cursors.len() as u16
    }

    /// Returns the number of items written.
    pub fn written(&self) -> usize
        ensures items { result ≡ length self.now.items }
        ensures slots { result ≡ length self.now.slots }
    {
        self.tokens.len()
    }

    /// Returns the slot of the written item number `position`, or `None` if there is no such item.
    pub fn slot(&self, position: usize) -> Option<usize>
        ensures { result ≡ slice_get self.now.slots position }
    {
        Some(self.tokens.get(position)?.index())
    }

    /// Returns the slot of each item written, in order. Returns an error if allocation fails.
    pub fn slots(&self) -> Result<Vec<usize>, AllocError>
        ensures { IfOk result (λ slots. slots.items ≡ self.now.slots) }
    {
        let mut slots = Vec::new(self.alloc);
        for position in 0..self.written() {
            let Some(slot) = self.slot(position) else {
                unreachable!()
            };
            slots.push(slot)?;
        }
        Ok(slots)
    }

    /// Returns whether the written item number `position` is at the slot of this sight. If it is, it is the sight's
    /// item. The sight must be of the list's own shelf.
    pub fn agrees(&self, position: usize, sight: &Sight) -> bool
        requires { IsOf self.now.shelf sight.now }
        ensures slot { IsTrue result ↔ (slice_get self.now.slots position ≡ Some sight.now.slot) }
        ensures item { IsTrue result → slice_get self.now.items position ≡ Some sight.now.item }
    {
        let Some(token) = self.tokens.get(position) else {
            return false;
        };
        if token.index() != sight.slot {
            return false;
        }
        self.items.agrees(token, &sight.token);
        true
    }

    // Returns the written item number `position`, if there is one.
    fn item(&self, position: usize) -> Option<Item>
        ensures { result ≡ slice_get self.now.items position }
    {
        let token = self.tokens.get(position)?;
        Some(*self.items.value(token))
    }

    /// Returns the item that a reader reads next, and leaves it there. Returns `None` if the reader's list is empty,
    /// and `NoReader` if there is no such reader.
    pub fn front(&self, reader: u16) -> Result<Option<Item>, CastFault>
        ensures { result ≡ first_of self.now reader }
    {
        let Some(cursor) = self.cursors.get(reader as usize) else {
            return Err(CastFault::NoReader);
        };
        match cursor.back() {
            Some(item) => Ok(Some(item)),
            None => Ok(self.item(cursor.position())),
        }
    }

    /// Returns all items that a reader has still to read, in order. Returns `NoReader` if there is no such reader, or
    /// `NoMemory` if allocation fails.
    pub fn remaining(&self, reader: u16) -> Result<Vec<Item>, CastFault>
        ensures refused { refused result ≡ reader_refusal self.now reader }
        ensures ok { IfOk result (λ list. list.items ≡ (reader_at self.now reader).list) }
    {
        let Some(cursor) = self.cursors.get(reader as usize) else {
            return Err(CastFault::NoReader);
        };
        let written = self.tokens.len();
        let backs = cursor.backs();
        let mut list = Vec::with_capacity(self.alloc, backs.len())?;
        list.extend_from_slice(backs)?;
        list.reverse();
        list.reserve(written - cursor.position())?;
        for position in cursor.position()..written {
            list.push_reserved(*self.items.value(&self.tokens[position]));
        }
        Ok(list)
    }

    /// Returns the items that each reader has still to read, in the order of the readers' numbers. Returns an error if
    /// allocation fails.
    pub fn lists(&self) -> Result<Vec<List<Item>>, AllocError>
        ensures { IfOk result (λ lists. lists.items ≡ read_of self.now) }
    {
        let mut lists = Vec::new(self.alloc);
        for reader in 0..self.readers() {
            let Ok(list) = self.remaining(reader) else {
                return Err(AllocError);
            };
            lists.push(List::from_vec(list))?;
        }
        Ok(lists)
    }

    /// Writes an item at the end of every reader's list. The item's origin must be `Written`. Returns `NoMemory` if
    /// allocation fails. Can block.
    pub fn append<R: Wait>(&mut self, rt: &R, item: Item) -> Result<(), CastFault>
        requires { IsWritten item }
        ensures refused { refused result ≡ None }
        ensures ok { OnOk result (Appends self.old item self.new) }
        ensures err { OnErr result (self.new ≡ self.old) }
    {
        self.tokens.reserve(1)?;
        let Ok(token) = self.items.push_shown(rt, item) else {
            return Err(CastFault::NoMemory);
        };
        self.tokens.push_reserved(token);
        Ok(())
    }

    /// Removes and returns a reader's next item, or returns `None` if the reader's list is empty. The take of a
    /// put-back raises the reader's count by 1. Returns `NoReader` if there is no such reader.
    pub fn take(&mut self, reader: u16) -> Result<Option<Item>, CastFault>
        ensures value { result ≡ first_of self.old reader }
        ensures taken { self.new ≡ taken_at self.old reader }
    {
        let Some(item) = self.front(reader)? else {
            return Ok(None);
        };
        self.cursors[reader as usize].step();
        Ok(Some(item))
    }

    /// Puts an item in front of one reader's list, so that it is read next. The item's origin must be `Back`. Returns
    /// `NoReader` if there is no such reader, or `NoMemory` if allocation fails.
    pub fn put_back(&mut self, reader: u16, item: Item) -> Result<(), CastFault>
        requires { IsBack item }
        ensures refused { refused result ≡ reader_refusal self.old reader }
        ensures ok { OnOk result (self.new ≡ given_back self.old reader item) }
        ensures err { OnErr result (self.new ≡ self.old) }
    {
        if reader as usize >= self.cursors.len() {
            return Err(CastFault::NoReader);
        }
        self.cursors[reader as usize].put_back(item)?;
        Ok(())
    }

    /// Makes a reader that gets the items that are written from then on, and returns its number. Returns
    /// `TooManyReaders` if there are 64 readers already, or `NoMemory` if allocation fails.
    pub fn dup(&mut self) -> Result<u16, CastFault>
        ensures refused { refused result ≡ place_refusal self.old }
        ensures ok { IfOk result (λ number. (number ≡ length self.old.readers)
            × (self.new ≡ with_new_reader self.old fresh)) }
        ensures err { OnErr result (self.new ≡ self.old) }
    {
        let number = self.next_number()?;
        let cursor = Cursor::new(self.alloc, self.written());
        self.cursors.reserve(1)?;
        self.cursors.push_reserved(cursor);
        Ok(number)
    }

    /// Makes a reader that begins with all items that this reader has to read, and returns its number. Returns
    /// `NoReader` if there is no such reader, or `TooManyReaders` if there are 64 readers already. Returns `NoMemory`
    /// if allocation fails.
    pub fn clone_reader(&mut self, reader: u16) -> Result<u16, CastFault>
        ensures refused { refused result ≡ clone_refusal self.old reader }
        ensures ok { IfOk result (λ number. (number ≡ length self.old.readers) × (self.new ≡ cloned self.old reader)) }
        ensures err { OnErr result (self.new ≡ self.old) }
    {
        if reader as usize >= self.cursors.len() {
            return Err(CastFault::NoReader);
        }
        let number = self.next_number()?;
        self.cursors.reserve(1)?;
        let clone = self.cursors[reader as usize].clone(self.alloc)?;
        self.cursors.push_reserved(clone);
        Ok(number)
    }

    // Returns the number that the next reader gets, or `TooManyReaders` if there are 64 readers already.
    fn next_number(&self) -> Result<u16, CastFault>
        ensures refused { refused result ≡ place_refusal self.now }
        ensures ok { IfOk result (λ number. number ≡ length self.now.readers) }
        ensures few { OnOk result (length self.now.readers < MAX_READERS) }
        ensures err { OnErr result (MAX_READERS ≤ length self.now.readers) }
    {
        let number = self.readers();
        if u64::from(number) >= MAX_READERS {
            return Err(CastFault::TooManyReaders);
        }
        Ok(number)
    }

    // Each `undo_` states what the cast becomes (`value`), and that this is the cast from before the call that it
    // undoes (`undone`, which follows from `value`).

    /// Undoes the last append. There must be a written item, and each reader must have a written item still to read.
    /// The item of the append stays on the shelf.
    pub fn undo_append(&mut self)
        requires { CanUnappend self.old }
        ensures value { self.new ≡ unappended self.old }
        ensures undone { UndoesAppend self.old self.new }
    {
        self.tokens.pop();
    }

    /// Undoes a reader's take of this item. If the item was written, it must be the one just before those that the
    /// reader has left to read, and the reader must have no put-back. If the item was put back, the reader's count of
    /// takes of put-backs that can be undone must be at least 1, and falls by 1.
    pub fn undo_take(&mut self, reader: u16, item: Item)
        requires { CanUntakeAt self.old reader item }
        ensures value { self.new ≡ untaken self.old reader item }
        ensures undone { UndoesTake self.old reader item self.new }
    {
        match item.origin {
            Origin::Written(_) => self.cursors[reader as usize].undo_take_of_written(),
            Origin::Back(_) => self.cursors[reader as usize].undo_take_of_back(item),
        }
    }

    /// Undoes the last put-back to a reader. The reader's list must begin with a put-back.
    pub fn undo_put_back(&mut self, reader: u16)
        requires { CanUngiveAt self.old reader }
        ensures value { self.new ≡ ungiven self.old reader }
        ensures undone { UndoesPutBack self.old reader self.new }
    {
        self.cursors[reader as usize].undo_put_back();
    }

    /// Removes the last reader. There must be one.
    pub fn undo_reader(&mut self)
        requires { 0 < length self.old.readers }
        ensures value { self.new ≡ unbegun self.old }
        ensures undone { UndoesReader self.old self.new }
    {
        self.cursors.pop();
    }

    /// Sets each reader's count to 0: no take of a put-back can be undone any more.
    pub fn settle(&mut self)
        ensures { self.new ≡ all_settled self.old }
    {
        for cursor in self.cursors.iter_mut() {
            cursor.settle();
        }
    }
}
