// What a table and its seats record.
use txc_chan::{FullLog, GhostLog, Log};
use txc_table_seat::{AllReceipts, LastReceipt, Receipts};

/// How a table keeps its logs and its seats keep their receipts. Either both are complete, or neither.
pub trait Recording: Log {
    /// How seats keep their receipts.
    type Receipts: Receipts;
}

impl Recording for FullLog {
    type Receipts = AllReceipts;
}

impl Recording for GhostLog {
    type Receipts = LastReceipt;
}
