// An item that was seen on a shelf.
ghost use Rattle.std.specs.Prelude.{◌≡◌};

use boxcar::Pushed;
use std::fmt;
use txc_base::Item;

/// An item at a slot of a shelf. It stays there as long as the shelf exists.
#[derive(Drop)]
pub struct Sight {
    /// The slot.
    pub slot: usize,
    /// The item at the slot.
    pub item: Item,
    pub(crate) token: Pushed<Item>,
    ghost at: { token.index ≡ slot },
    ghost shows: { token.value ≡ item },
}

impl fmt::Debug for Sight {
    fn fmt<W: fmt::Write>(&self, f: &mut fmt::Formatter<W>) -> fmt::Result {
        // The token is not shown.
        let Sight { slot, item, .. } = self;
        write!(f, "Sight {{ slot: {slot}, item: {item:?} }}")
    }
}
