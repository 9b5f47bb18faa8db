// How large a table may be.
ghost use Rattle.std.specs.Prelude.{◌≡◌};
ghost use Rattle.txc_table_report.specs.Refusal.{channel_limit, seat_limit};

use txc_base::{MAX_CHANNELS, MAX_CHANNELS_OF_LARGE, MAX_SEATS, MAX_SEATS_OF_LARGE};

/// How large a table may be.
#[derive(Debug, Clone, Copy, PartialEq, Eq, Default)]
pub enum Limits {
    /// Up to 8 channels and 16 seats, as many as a script has.
    #[default]
    Small,
    /// Up to 1,024 channels and 64 seats.
    Large,
}

impl Limits {
    /// Returns the most channels of a table.
    pub fn max_channels(self) -> usize
        ensures { result ≡ channel_limit self }
    {
        match self {
            Limits::Small => MAX_CHANNELS,
            Limits::Large => MAX_CHANNELS_OF_LARGE,
        }
    }

    /// Returns the most seats of a table.
    pub fn max_seats(self) -> usize
        ensures { result ≡ seat_limit self }
    {
        match self {
            Limits::Small => MAX_SEATS,
            Limits::Large => MAX_SEATS_OF_LARGE,
        }
    }
}
