// The report of all channels and seats.
use crate::receipt::Receipt;
use txc_base::List;
use txc_chan::Account;

/// A snapshot of all channels and all receipts.
#[derive(Debug, PartialEq, Eq, Drop)]
pub struct Report {
    /// The channels, by channel number.
    pub accounts: List<Account>,
    /// The receipts of each seat, by seat number, in the order of their commits.
    pub receipts: List<List<Receipt>>,
}
