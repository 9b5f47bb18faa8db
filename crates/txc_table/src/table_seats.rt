// The seats of a table.
ghost use Rattle.std.specs.Prelude.{◌≡◌};

use std::marker::Model;
use std::snapshot::Snapshot;
use txc_base_ledger::Share;

/// How many seats a table has and, for proofs, which table's they are: `share` names the table's ledger, and each seat
/// has a part of that ledger.
#[derive(Drop)]
pub(crate) struct TableSeats {
    pub(crate) count: u16,
    share: Snapshot<Share>,
}

impl Model for TableSeats {
    ghost use Rattle.std.specs.Prelude.{◌≡◌};
    ghost use Rattle.txc_table.specs.Table.{TableSeatsView};

    ghost Value = { TableSeatsView };

    ghost view = { λ table_seats. record { ledger = table_seats.share.value.name; seats = table_seats.count } };

    ghost invariant = { λ table_seats. table_seats.share.value.whole ≡ table_seats.count };
}

impl TableSeats {
    /// Creates the seats of a table: this many, with a share of the table's own ledger.
    pub(crate) fn new(count: u16, share: &Share) -> TableSeats
        requires { share.now.whole ≡ count }
        ensures ledger { result.ledger ≡ share.now.name }
        ensures seats { result.seats ≡ count }
    {
        TableSeats {
            count,
            share: Snapshot::of(share),
        }
    }

    /// Returns the number of seats.
    pub(crate) fn count(&self) -> u16
        ensures { result ≡ self.now.seats }
    {
        self.count
    }
}
