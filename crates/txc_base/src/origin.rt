// The origin of an item.
ghost use Rattle.std.specs.Prelude.{Some};
ghost use Rattle.txc_base.specs.Text.{origin_text};

use std::fmt;

/// How an item came into its channel. The numbers of written items and of put-backs begin at 0 in each channel.
#[derive(Debug, Clone, Copy, PartialEq, Eq)]
pub enum Origin {
    /// The item with this number among those written to the channel.
    Written(u64),
    /// The item with this number among those put back to the channel.
    Back(u64),
}

impl fmt::Display for Origin {
    ghost output = { λ origin. Some (origin_text origin) };

    fn fmt<W: fmt::Write>(&self, f: &mut fmt::Formatter<W>) -> fmt::Result {
        match self {
            Origin::Written(number) => write!(f, "w{number}"),
            Origin::Back(number) => write!(f, "b{number}"),
        }
    }
}
