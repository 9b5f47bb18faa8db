// Channels on which transactions are run again.
ghost use Rattle.std.specs.Prelude.{◌≡◌, ◌≢◌, ◌≤◌, ◌↔◌, ℕ, None, Some, Ok, Err, false, length, map, slice_get, IsTrue};
ghost use Rattle.std.specs.Prelude.{IfOk, MatchOption};
ghost use Rattle.txc_base.specs.declared.limits.TheConstants.{MAX_CHANNELS_OF_LARGE};
ghost use Rattle.txc_chan.specs.declared.account.Account.{Account as Accounts};
ghost use Rattle.txc_chan.specs.Limits.{first_fault};
ghost use Rattle.txc_chan.specs.Logged.{opened};
ghost use Rattle.txc_txn_check.specs.Steps.{Fits};
ghost use Rattle.txc_txn.specs.Maps.{Map};
ghost use Rattle.txc_txn.specs.Plain.{chan_in};
ghost use Rattle.txc_chan.specs.Decls.{kinds_in};
ghost use Rattle.txc_txn_history.specs.OneOrder.{Happens, Shows};
ghost use Rattle.txc_table_audit.specs.Refused.{IsFirstWrong};

use crate::condition::kinds_of;
use std::alloc::{AllocError, Global};
use std::marker::Model;
use std::sync::Wait;
use txc_base::{Kind, Stop, Tag};
use txc_chan::{Account, ChanFault, Decl, FullLog};
use txc_txn::{Plain, Ran, Receipt, run_held};
use txc_txn_check::Checked;

/// Channels on which transactions are run again, with their kinds.
#[derive(Drop)]
pub struct Rerun {
    alloc: Global,
    plain: Plain<FullLog>,
    kinds: Vec<Kind>,
}

impl Model for Rerun {
    ghost use Rattle.txc_txn.specs.Opening.{HasKinds};
    ghost use Rattle.txc_table_audit.specs.Kinds.{Channels};

    ghost Value = { Channels };

    ghost view = { λ rerun. record { held = rerun.plain; kinds = rerun.kinds.items } };

    ghost invariant = { λ rerun. HasKinds rerun.plain rerun.kinds.items };
}

/// Returns whether two accounts have the same closed flag, log and lists.
fn is_same_account(one: &Account, other: &Account) -> bool
    ensures { IsTrue result ↔ ((one.now.closed ≡ other.now.closed)
        × ((one.now.log ≡ other.now.log) × (one.now.remaining ≡ other.now.remaining))) }
{
    one.closed == other.closed && one.log == other.log && one.remaining == other.remaining
}

/// Returns whether a run committed and gave exactly this receipt. Returns `AllocError` if the run failed with
/// `NoMemory`.
fn gave(ran: Result<Ran, Stop>, receipt: &Receipt) -> Result<bool, AllocError>
    ensures same { IfOk result (λ same. IsTrue same → ran ≡ Ok (Ran.Kept receipt.now)) }
    ensures wrong { IfOk result (λ same. same ≡ false → (ran ≢ Ok (Ran.Kept receipt.now)) × (ran ≢ Err Stop.NoMemory)) }
{
    match ran {
        Ok(Ran::Kept(kept)) => Ok(kept == *receipt),
        Ok(Ran::Retry(_)) => Ok(false),
        Err(Stop::NoMemory) => Err(AllocError),
        Err(_) => Ok(false),
    }
}

impl Rerun {
    /// Makes channels as they are declared. There must be at most 1,024, and it must be possible to make each. Returns
    /// `AllocError` if allocation fails.
    pub fn build(alloc: Global, decls: &[Decl]) -> Result<Rerun, AllocError>
        requires few { length decls.now ≤ MAX_CHANNELS_OF_LARGE }
        requires made { first_fault decls.now ≡ None }
        ensures held { IfOk result (λ rerun. map (λ held. held.logged) rerun.held ≡ map opened decls.now) }
        ensures kinds { IfOk result (λ rerun. rerun.kinds ≡ kinds_in decls.now) }
    {
        let plain = match Plain::<FullLog>::build(alloc, decls) {
            Ok(plain) => plain,
            Err(ChanFault::NoMemory) => return Err(AllocError),
            Err(_) => unreachable!(),
        };
        let kinds = Vec::from_slice(alloc, &kinds_of(decls)[..decls.len()])?;
        Ok(Rerun {
            alloc,
            plain,
            kinds,
        })
    }

    /// Runs a transaction with this tag, and returns whether it commits and gives exactly this receipt. Returns
    /// `AllocError` if allocation fails.
    pub fn run<R: Wait>(
        &mut self,
        rt: &R,
        tag: Tag,
        checked: &Checked,
        receipt: &Receipt,
    ) -> Result<bool, AllocError>
        requires fits { Fits (slice_get self.old.kinds) checked.now.steps }
        ensures kinds { self.new.kinds ≡ self.old.kinds }
        ensures same { IfOk result (λ same. IsTrue same
            → Happens (chan_in self.old.held) tag checked.now receipt.now (chan_in self.new.held)) }
        ensures wrong { IfOk result (λ same. same ≡ false
            → (left : Map) → ¬ Happens (chan_in self.old.held) tag checked.now receipt.now left) }
    {
        checked.show_fits(self.kinds.as_slice());
        let ran = run_held(rt, self.alloc, &mut self.plain, tag, checked);
        gave(ran, receipt)
    }

    /// Returns the first channel whose account has another closed flag, log or lists, or `None`. Returns `AllocError`
    /// if allocation fails.
    pub fn find_wrong_account(&self, accounts: &[Account]) -> Result<Option<u16>, AllocError>
        requires few { length accounts.now ≤ MAX_CHANNELS_OF_LARGE }
        requires there { length accounts.now ≤ length self.now.kinds }
        ensures { IfOk result (λ found. MatchOption found
            ((n : ℕ) (account : Accounts) → slice_get accounts.now n ≡ Some account
            → Shows account (chan_in self.now.held n))
            (λ chan. IsFirstWrong accounts.now (chan_in self.now.held) chan)) }
    {
        for chan in 0..accounts.len() {
            let Ok(left) = self.plain.account(chan as u16) else {
                return Err(AllocError);
            };
            if !is_same_account(&accounts[chan], &left) {
                return Ok(Some(chan as u16));
            }
        }
        Ok(None)
    }
}
