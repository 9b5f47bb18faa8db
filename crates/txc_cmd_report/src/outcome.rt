// The outcome of a script.
use crate::seat_end::SeatEnd;
use txc_base::List;
use txc_txn::Report;

/// The outcome of a script: all channels and receipts, and how each seat ended.
#[derive(Debug, PartialEq, Eq, Drop)]
pub struct Outcome {
    /// The channels and the receipts at the end.
    pub report: Report,
    /// How the seats ended, indexed by seat number.
    pub ends: List<SeatEnd>,
}
