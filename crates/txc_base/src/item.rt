// The items of a channel.
ghost use Rattle.std.specs.Prelude.{Some};
ghost use Rattle.txc_base.specs.Text.{item_text, items_text};

use crate::origin::Origin;
use std::fmt;

/// An item of a channel. No two items of one channel have the same origin.
#[derive(Debug, Clone, Copy, PartialEq, Eq)]
pub struct Item {
    /// How it came into the channel.
    pub origin: Origin,
    /// The number of the seat that made it.
    pub seat: u16,
    /// The value that it carries.
    pub body: u64,
}

impl fmt::Display for Item {
    ghost output = { λ item. Some (item_text item) };

    fn fmt<W: fmt::Write>(&self, f: &mut fmt::Formatter<W>) -> fmt::Result {
        let Item { origin, seat, body } = self;
        write!(f, "{origin}@{seat}={body}")
    }
}

/// Items as a report shows them: each after a space.
#[derive(Debug, Clone, Copy)]
pub struct Items<'a>(pub &'a [Item]);

impl fmt::Display for Items<'_> {
    ghost output = { λ items. Some (items_text items.0.now) };

    fn fmt<W: fmt::Write>(&self, f: &mut fmt::Formatter<W>) -> fmt::Result {
        for item in self.0 {
            write!(f, " {item}")?;
        }
        Ok(())
    }
}
