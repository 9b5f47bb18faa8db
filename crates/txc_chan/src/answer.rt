// The result of an operation on a channel.
use txc_base::{Cause, Reply};

/// The result of an operation that does not abort its transaction.
#[derive(Debug, Clone, PartialEq, Eq, Drop)]
pub enum Answer {
    /// The operation was done, or rejected with a reply, and the transaction goes on.
    Replied(Reply),
    /// The transaction must wait. The channel is unchanged.
    Retry(Cause),
}
