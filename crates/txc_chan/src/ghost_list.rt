// A list that exists only in proofs.
ghost use Rattle.std.specs.Prelude.{◌≡◌, ◌++◌, ◌∷◌, []};

use std::marker::Model;
use std::snapshot::Snapshot;

/// The parts of a list. No value of this type stays in memory: only snapshots refer to it.
#[derive(Drop)]
pub(crate) enum Node<E: Drop> {
    Nothing,
    One(Snapshot<Snapshot<Node<E>>>, Snapshot<E>),
    More(Snapshot<Snapshot<Node<E>>>, Snapshot<Vec<E>>),
}

/// A list that exists only in proofs and uses no memory. In a contract it is the list itself.
#[derive(Drop)]
pub struct GhostList<E: Drop> {
    past: Snapshot<Node<E>>,
}

impl<E: Drop> Model for GhostList<E> {
    ghost use Rattle.std.specs.Prelude.{List};
    ghost use Rattle.txc_chan.specs.Flat.{flat};

    ghost Value = { List E };

    ghost view = { λ list. flat list.past.value };
}

impl<E: Drop> GhostList<E> {
    /// Creates an empty list.
    pub fn new() -> GhostList<E>
        ensures { result ≡ [] }
    {
        let nothing = Node::Nothing;
        GhostList {
            past: Snapshot::of(&nothing),
        }
    }

    /// Adds one element at the end.
    pub fn push(&mut self, one: &E)
        ensures { self.new ≡ self.old ++ one.now ∷ [] }
    {
        let past = Node::One(Snapshot::of(&self.past), Snapshot::of(one));
        self.past = Snapshot::of(&past);
    }

    /// Adds these elements at the end.
    pub fn add(&mut self, more: &Vec<E>)
        ensures { self.new ≡ self.old ++ more.now.items }
    {
        let past = Node::More(Snapshot::of(&self.past), Snapshot::of(more));
        self.past = Snapshot::of(&past);
    }
}
