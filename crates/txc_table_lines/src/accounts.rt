// Accounts of the lines at the end of a table.
ghost use Rattle.std.specs.Prelude.{◌≡◌, ◌<◌, length, IfErr, IfOk};
ghost use Rattle.txc_table_lines.specs.Accounted.{AreAccounts, AreSummaries, IsSnapshotAt, with_log_at, with_logs};
ghost use Rattle.txc_table_lines.specs.Locked.{AreClean, AreWhole, ledgers_in, ledgers_of, line_decls_of, helds_of};
ghost use Rattle.txc_table_lines.specs.Locked.{lines_of};

use crate::collected_shares::CollectedShares;
use crate::locked_lines::LockedLines;
use std::alloc::Global;
use std::sync::Wait;
use txc_base::{Entry, List, Stop};
use txc_chan::{Account, FullLog, Log, Summary};
use txc_table_line::{SnapshotKind, Summarized, WithoutLog};

impl<K: Log> LockedLines<K> {
    /// Returns a snapshot of one of the channels, in which nothing may be left to undo. Returns `NoMemory` if an
    /// allocation fails, and no other error.
    pub fn take_snapshot<T: SnapshotKind<K>>(&mut self, at: usize) -> Result<T::Output, Stop>
        requires there { at < length self.old }
        requires clean { AreClean (helds_of self.old) }
        ensures ok { IfOk result (IsSnapshotAt T.snapshot_of (line_decls_of self.old) (helds_of self.old) at) }
        ensures err { IfErr result (λ stop. stop ≡ Stop.NoMemory) }
        ensures same { self.new ≡ self.old }
    {
        match &mut self.lines.as_mut_slice()[at] {
            Some(line) => line.extract::<T>(),
            None => unreachable!(),
        }
    }

    /// Returns an account of each channel without its log. Nothing may be left to undo in them. Returns `NoMemory` if
    /// an allocation fails, and no other error.
    pub fn summaries(&mut self, alloc: Global) -> Result<Vec<Summary>, Stop>
        requires clean { AreClean (helds_of self.old) }
        ensures ok { IfOk result (λ summaries.
            AreSummaries (line_decls_of self.old) (helds_of self.old) (length self.old) summaries.items) }
        ensures err { IfErr result (λ stop. stop ≡ Stop.NoMemory) }
        ensures same { self.new ≡ self.old }
    {
        let mut summaries = Vec::with_capacity(alloc, self.len())?;
        for at in 0..self.len() {
            summaries.push_reserved(self.take_snapshot::<Summarized>(at)?);
        }
        Ok(summaries)
    }
}

impl LockedLines<FullLog> {
    /// Returns the accounts of the channels without their logs. Nothing may be left to undo in them. Returns `NoMemory`
    /// if an allocation fails, and no other error.
    pub fn accounts_without_logs(&mut self, alloc: Global) -> Result<Vec<Account>, Stop>
        requires clean { AreClean (helds_of self.old) }
        ensures ok { IfOk result (λ accounts. AreAccounts (line_decls_of self.old) (helds_of self.old) (length self.old)
            (with_logs accounts.items (helds_of self.old))) }
        ensures err { IfErr result (λ stop. stop ≡ Stop.NoMemory) }
        ensures same { self.new ≡ self.old }
    {
        let mut accounts = Vec::with_capacity(alloc, self.len())?;
        for at in 0..self.len() {
            accounts.push_reserved(self.take_snapshot::<WithoutLog>(at)?);
        }
        Ok(accounts)
    }

    /// Takes the channels, in which nothing may be left to undo, out of their locks, and gives these accounts their
    /// logs. The shares must be those of all seats: they show that the logs do not change meanwhile. The locks are
    /// free, so this does not block. It copies no log.
    pub fn into_logs<R: Wait>(
        self,
        rt: &R,
        accounts: Vec<Account>,
        shares: CollectedShares,
    ) -> Vec<Account>
        requires of { ledgers_in shares ≡ ledgers_of (lines_of self) }
        requires whole { AreWhole shares }
        requires clean { AreClean (helds_of self) }
        ensures { result.items ≡ with_logs accounts.items (helds_of self) }
    {
        let LockedLines { lines, locks: _ } = self;
        let CollectedShares { mut shares } = shares;
        let mut accounts = accounts;
        let mut at = 0usize;
        for line in lines {
            match line {
                Some(line) => set_log(&mut accounts, at, line.into_log(rt, &mut shares[at])),
                None => unreachable!(),
            }
            at += 1;
        }
        accounts
    }
}

/// Gives the account at this place, if there is one, the log of its channel.
fn set_log(accounts: &mut Vec<Account>, at: usize, log: Vec<Entry>)
    ensures { accounts.new.items ≡ with_log_at accounts.old.items at log.items }
{
    if at < accounts.len() {
        accounts[at].log = List::from_vec(log);
    }
}
