// The functions that change a ledger and its shares. Each is proved by hand.
ghost use Rattle.txc_base_ledger.specs.Changes.{AreNew, AreOfOne, CanRecord, IsEmpty, IsRecorded};
ghost use Rattle.txc_base_ledger.specs.Changes.{Absorbed, CanShift, Shifted};

use crate::ledger::Ledger;
use crate::share::Share;
use std::marker::PhantomData;

/// Makes a ledger with a new name, and the share with all its parts.
pub(crate) fn open(parts: u64) -> (Ledger, Share)
    ensures { AreNew parts result.0 result.1 }
{
    (
        Ledger {
            marker: PhantomData,
        },
        Share {
            marker: PhantomData,
        },
    )
}

/// Adds an amount to a ledger and to a share of it, and subtracts another amount from both. Shows how the share's
/// amount relates to the ledger's total.
pub(crate) fn record(ledger: &mut Ledger, share: &mut Share, plus: u64, minus: u64)
    requires { CanRecord plus minus ledger.old share.old }
    ensures { IsRecorded plus minus ledger.old share.old ledger.new share.new }
{}

/// Makes a share of the same ledger without a part.
pub(crate) fn empty(share: &mut Share) -> Share
    ensures { IsEmpty share.old share.new result }
{
    Share {
        marker: PhantomData,
    }
}

/// Moves some parts and an amount from a share to another share of the same ledger.
pub(crate) fn shift(from: &mut Share, to: &mut Share, parts: u64, amount: u64)
    requires { CanShift parts amount from.old to.old }
    ensures { Shifted parts amount from.old to.old from.new to.new }
{}

/// Moves all parts and the whole amount of a share to another share of the same ledger.
pub(crate) fn merge_shares(to: &mut Share, from: &mut Share)
    requires { AreOfOne to.old from.old }
    ensures { Absorbed to.old from.old to.new }
{}
