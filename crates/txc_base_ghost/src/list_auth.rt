// The right to change what a list is.
ghost use Rattle.std.specs.Prelude.{◌≡◌, ℕ, List, [], ◌∷◌, ◌++◌};
ghost use mathlib.Core.List.{IsPrefix};
ghost use base.Stored.{coded_list};
ghost use Rattle.txc_base_ghost.specs.ListAuth.{stands};

use crate::list_prefix::ListPrefix;
use std::marker::{Model, PhantomData};

/// Which list a value represents.
pub trait Tells<X, E> {
    /// The list of a value.
    ghost list: { X → List E };
}

/// The only right to change what the list of this name is. The list can only grow.
pub struct ListAuth<E> {
    pub(crate) marker: PhantomData<E>,
    pub ghost name: { ℕ },
    pub ghost log: { List E } by { coded_list E.code },
}

impl<E> Model for ListAuth<E> {
    ghost also_owns = { λ p. stands E.row.coded.code p.name p.log };
}

impl<E> ListAuth<E> {
    /// Makes the right for an empty list, under a name that no other list has.
    pub fn new() -> ListAuth<E>
        ensures { result.log ≡ [] }
    {
        ListAuth {
            marker: PhantomData,
        }
    }

    /// Changes the list to the one that `to` represents, which must begin with the present list.
    pub fn grow<X, M: Tells<X, E>>(&mut self, to: &X)
        requires { IsPrefix self.old.log (M.list to.now) }
        ensures { (self.new.name ≡ self.old.name) × (self.new.log ≡ M.list to.now) }
    {}

    /// Appends an entry to the list. The program does not have to store the entry.
    pub fn push(&mut self, entry: &E)
        ensures { (self.new.name ≡ self.old.name) × (self.new.log ≡ self.old.log ++ entry.now ∷ []) }
    {}

    /// Returns a token of what the list is now.
    pub fn seen(&mut self) -> ListPrefix<E>
        ensures { (self.new ≡ self.old) × (result.name ≡ self.old.name) × (result.log ≡ self.old.log) }
    {
        ListPrefix {
            marker: PhantomData,
        }
    }

    /// Shows that the list begins with the list of a token.
    pub fn show(&mut self, seen: &ListPrefix<E>)
        requires { seen.now.name ≡ self.old.name }
        ensures { (self.new ≡ self.old) × IsPrefix seen.now.log self.old.log }
    {}
}

impl<E> Drop for ListAuth<E> {
    fn drop(self) {
        let Self { marker: _ } = self;
    }
}

unsafe impl<E> Send for ListAuth<E> {}
