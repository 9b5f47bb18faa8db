// What is seen of a script between two moves.
ghost use Rattle.std.specs.Prelude.{◌≡◌, IsTrue};

use txc_base::List;
use txc_cmd_report::SeatEnd;

/// What is seen of a channel.
#[derive(Debug, PartialEq, Eq, Drop)]
pub struct Shape {
    /// Whether it is closed.
    pub closed: bool,
    /// How many items each reader has left, by reader number.
    pub left: List<usize>,
}

/// What is seen of a script between two moves. No item is: which items there are changes no way to go on.
#[derive(Debug, PartialEq, Eq, Drop)]
pub struct State {
    /// The channels, by channel number.
    pub shapes: List<Shape>,
    /// How many transactions each seat has committed, by seat number.
    pub commits: List<usize>,
    /// `Stopped` for each seat that was stopped, otherwise `Finished`.
    pub stops: List<SeatEnd>,
}

/// Returns whether two states are the same.
pub(crate) fn are_same(one: &State, other: &State) -> bool
    ensures same { IsTrue result → one.now ≡ other.now }
    ensures known { one.now ≡ other.now → IsTrue result }
{
    one == other
}
