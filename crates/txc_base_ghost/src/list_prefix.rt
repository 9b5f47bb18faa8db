// A token of what a list has been.
ghost use Rattle.std.specs.Prelude.{◌≡◌, ◌≤◌, ℕ, List, length};
ghost use mathlib.Core.List.{IsPrefix};
ghost use base.Stored.{coded_list};
ghost use denote.Sharing.{said};
ghost use Rattle.txc_base_ghost.specs.ListAuth.{reached};

use std::marker::{Model, PhantomData};

/// A token that the list of this name has been `log`.
pub struct ListPrefix<E> {
    pub(crate) marker: PhantomData<E>,
    pub ghost name: { ℕ },
    pub ghost log: { List E } by { coded_list E.code },
}

impl<E> Model for ListPrefix<E> {
    ghost also_owns = { λ s. reached E.row.coded.code s.name s.log };

    ghost also_shares = { λ s _ κ. said (reached E.row.coded.code s.name s.log) κ };
}

impl<E> ListPrefix<E> {
    /// Returns a copy.
    pub fn again(&self) -> ListPrefix<E>
        ensures { result ≡ self.now }
    {
        ListPrefix {
            marker: PhantomData,
        }
    }

    /// Shows that of two tokens of one list, the longer list begins with the shorter one.
    pub fn show_order(&self, other: &ListPrefix<E>)
        requires { other.now.name ≡ self.now.name }
        ensures { length self.now.log ≤ length other.now.log → IsPrefix self.now.log other.now.log }
    {}
}

impl<E> Drop for ListPrefix<E> {
    fn drop(self) {
        let Self { marker: _ } = self;
    }
}

unsafe impl<E> Send for ListPrefix<E> {}

unsafe impl<E> Sync for ListPrefix<E> {}
