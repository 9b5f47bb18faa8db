// The position of a reader.
ghost use Rattle.std.specs.Prelude.{◌≡◌, ◌+◌, ◌-◌, ◌<◌, ◌^◌, ◌∷◌, drop, reverse, slice_get, IfOk, OnOk, OnErr};
ghost use Rattle.txc_cast.specs.Standing.{standing_at, stepped, at_rest};

use std::alloc::{AllocError, Global};
use std::marker::Model;
use txc_base::Item;

/// The position of a reader: the number of its next written item, and its own put-backs, which it reads first.
#[derive(Drop)]
pub(crate) struct Cursor {
    position: usize,
    // The latest put-back is last, and is taken next.
    backs: Vec<Item>,
    // The number of takes of put-backs that can be undone. `backs` has capacity for these.
    undoable: usize,
}

impl Model for Cursor {
    ghost use Rattle.std.specs.Prelude.{◌+◌, ◌≤◌, reverse, vec_len, vec_capacity};
    ghost use Rattle.txc_cast.specs.Standing.{ReaderState};

    ghost Value = { ReaderState };

    ghost view = { λ cursor. record {
      position = cursor.position;
      backs = reverse cursor.backs.items;
      undoable = cursor.undoable;
    } };

    ghost invariant = { λ cursor. vec_len cursor.backs + cursor.undoable ≤ vec_capacity cursor.backs };
}

impl Cursor {
    /// Returns a reader that begins at this position.
    pub(crate) fn new(alloc: Global, position: usize) -> Cursor
        ensures { result ≡ standing_at position }
    {
        Cursor {
            position,
            backs: Vec::new(alloc),
            undoable: 0,
        }
    }

    /// Returns another reader at this position, with no take to undo. Returns an error if allocation fails.
    pub(crate) fn clone(&self, alloc: Global) -> Result<Cursor, AllocError>
        ensures { IfOk result (λ clone. clone ≡ at_rest self.now) }
    {
        let mut backs = Vec::with_capacity(alloc, self.backs.len())?;
        backs.extend_from_slice(self.backs.as_slice())?;
        Ok(Cursor {
            position: self.position,
            backs,
            undoable: 0,
        })
    }

    /// Returns the number of the reader's next written item.
    pub(crate) fn position(&self) -> usize
        ensures { result ≡ self.now.position }
    {
        self.position
    }

    /// Returns the latest put-back, if there is one.
    pub(crate) fn back(&self) -> Option<Item>
        ensures { result ≡ slice_get self.now.backs 0 }
    {
        self.backs.last().copied()
    }

    /// Returns the put-backs, the latest last.
    pub(crate) fn backs(&self) -> &[Item]
        ensures { reverse result.now ≡ self.now.backs }
    {
        self.backs.as_slice()
    }

    /// Moves past the latest put-back, or past a written item if there is no put-back.
    pub(crate) fn step(&mut self)
        requires { self.old.position + 1 < 2 ^ 64 }
        ensures { self.new ≡ stepped self.old }
    {
        if self.backs.pop().is_some() {
            self.undoable += 1;
        } else {
            self.position += 1;
        }
    }

    /// Puts an item back. Returns an error if allocation fails.
    pub(crate) fn put_back(&mut self, item: Item) -> Result<(), AllocError>
        ensures ok { OnOk result (self.new ≡ record self.old { backs = item ∷ self.old.backs }) }
        ensures err { OnErr result (self.new ≡ self.old) }
    {
        self.backs.reserve(self.undoable + 1)?;
        self.backs.push_reserved(item);
        Ok(())
    }

    /// Undoes the latest put-back.
    pub(crate) fn undo_put_back(&mut self)
        ensures { self.new ≡ record self.old { backs = drop 1 self.old.backs } }
    {
        self.backs.pop();
    }

    /// Undoes the take of a put-back.
    pub(crate) fn undo_take_of_back(&mut self, item: Item)
        requires { 0 < self.old.undoable }
        ensures { self.new ≡ record self.old { backs = item ∷ self.old.backs; undoable = self.old.undoable - 1 } }
    {
        self.backs.push_reserved(item);
        self.undoable -= 1;
    }

    /// Undoes the take of a written item.
    pub(crate) fn undo_take_of_written(&mut self)
        requires { 0 < self.old.position }
        ensures { self.new ≡ record self.old { position = self.old.position - 1 } }
    {
        self.position -= 1;
    }

    /// Makes all takes of put-backs permanent: none can be undone any more.
    pub(crate) fn settle(&mut self)
        ensures { self.new ≡ at_rest self.old }
    {
        self.undoable = 0;
    }
}
