// How many acts of each sort a seat has in a channel.
ghost use Rattle.std.specs.Prelude.{◌≡◌, ◌<◌, ◌≤◌, ◌+◌, ℕ, length, slice_index_or};
ghost use Rattle.std.specs.List.{All};
ghost use Rattle.txc_txn.specs.Run.{count_deeds};
ghost use Rattle.txc_table_seat.specs.Tally.{more, no_tally, sum, tally_acts, total};

use txc_base::Act;
use txc_txn::Deed;

/// Three counts of acts: those that wrote or put back an item, those that took one, and all others.
#[derive(Debug, Clone, Copy)]
pub struct Tally {
    pub put: u64,
    pub took: u64,
    pub other: u64,
}

impl Tally {
    /// Creates a tally of no acts.
    pub fn new() -> Tally
        ensures { result ≡ no_tally }
    {
        Tally {
            put: 0,
            took: 0,
            other: 0,
        }
    }

    /// Counts one more act.
    fn count(&mut self, act: &Act)
        requires { total self.old < u64.MAX }
        ensures { self.new ≡ more self.old act.now }
    {
        match act {
            Act::Wrote(_) | Act::PutBack(_, _) => self.put += 1,
            Act::Took(_, _) => self.took += 1,
            Act::Closed | Act::Begun(_) | Act::Cloned(_, _) => self.other += 1,
        }
    }
}

/// Adds these acts to the tallies of their channels. Each of these channels must have a tally.
pub fn count_acts(tallies: &mut [Tally], acts: &[Deed])
    requires inside { All (λ deed. deed.chan < length tallies.old) acts.now }
    requires few { (n : ℕ) → n < length tallies.old → total (slice_index_or tallies.old n no_tally)
        + count_deeds n acts.now ≤ u64.MAX }
    ensures { (n : ℕ) → slice_index_or tallies.new n no_tally
        ≡ sum (slice_index_or tallies.old n no_tally) (tally_acts n acts.now) }
{
    for deed in acts {
        let chan = usize::from(deed.chan);
        tallies[chan].count(&deed.act);
    }
}
