// Which tables can be made.
ghost use Rattle.std.specs.Prelude.{◌≡◌, ◌≢◌, Some, IfSome};
ghost use Rattle.txc_chan.specs.Limits.{first_fault};
ghost use Rattle.txc_table_report.specs.Refusal.{reason, refusal_of};

use crate::fault::TableFault;
use crate::limits::Limits;
use txc_chan::{ChanFault, Decl};

/// Returns the fault of the first channel that has one.
fn first_channel_fault(decls: &[Decl]) -> Option<ChanFault>
    ensures value { result ≡ first_fault decls.now }
    ensures known { IfSome result (λ fault. fault ≢ ChanFault.NoMemory) }
{
    for decl in decls {
        if let Some(fault) = decl.fault() {
            return Some(fault);
        }
    }
    None
}

/// Returns why no table of these channels and this number of seats can be made within the limits. Returns `None` if
/// there is no reason.
pub fn table_fault(limits: Limits, decls: &[Decl], seats: u16) -> Option<TableFault>
    ensures value { result ≡ refusal_of limits decls.now seats }
    ensures known { IfSome result (λ fault. reason fault ≡ Some fault) }
{
    if decls.len() > limits.max_channels() {
        return Some(TableFault::TooManyChannels);
    }
    if seats == 0 || usize::from(seats) > limits.max_seats() {
        return Some(TableFault::BadSeatCount);
    }
    match first_channel_fault(decls) {
        Some(ChanFault::BoundTooLarge) => Some(TableFault::BoundTooLarge),
        Some(ChanFault::TooManyReaders) => Some(TableFault::TooManyReaders),
        Some(ChanFault::NoMemory) => unreachable!(),
        None => None,
    }
}
