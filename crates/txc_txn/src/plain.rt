// A plain list of channels.
ghost use Rattle.std.specs.Prelude.{◌≡◌, ◌≢◌, ◌<◌, ℕ, None, Some, length, map, slice_get, slice_index_or, Contains};
ghost use Rattle.std.specs.Prelude.{IfOk, IfErr, OnOk, OnErr, take, ◌++◌, ◌∷◌, []};
ghost use Rattle.txc_chan.specs.Chan.{account_of, summary_of};
ghost use Rattle.txc_chan.specs.Logged.{opened};
ghost use Rattle.txc_txn.specs.Maps.{kinds_of};
ghost use Rattle.txc_chan.specs.Limits.{declared_fault, first_fault};
ghost use Rattle.txc_txn.specs.Plain.{chan_in, missing};
ghost use Rattle.txc_txn_check.specs.Steps.{Fits};

use crate::hold::Hold;
use crate::settle::Settle;
use std::alloc::Global;
use std::marker::Model;
use txc_base::{Entry, Kind, Op, Stop, Tag};
use txc_chan::{Account, Answer, Append, Chan, ChanFault, Decl, FullLog, Log, Summary};
use txc_txn_check::Checked;

/// A list of channels, all of them held. `K` decides how their logs are stored. Only channels with recorded logs
/// (`FullLog`) have snapshots with logs.
#[derive(Drop)]
pub struct Plain<K: Log> {
    pub(crate) chans: Vec<Chan<K>>,
}

impl<K: Log> Model for Plain<K> {
    ghost use Rattle.std.specs.Prelude.{List};
    ghost use Rattle.txc_chan.specs.ChanView.{ChanView};

    ghost Value = { List ChanView };

    ghost view = { λ plain. plain.chans.items };
}

impl<K: Log> Plain<K> {
    /// Creates a list without channels.
    pub fn new(alloc: Global) -> Plain<K>
        ensures { result ≡ [] }
    {
        Plain {
            chans: Vec::new(alloc),
        }
    }

    /// Creates open and empty channels, numbered from 0 in the order of their declarations. Returns the fault of the
    /// first declaration that has one, or `NoMemory` if allocation fails before that.
    pub fn build(alloc: Global, decls: &[Decl]) -> Result<Plain<K>, ChanFault>
        ensures ok { IfOk result (λ plain. map (λ held. held.logged) plain ≡ map opened decls.now) }
        ensures fine { OnOk result (first_fault decls.now ≡ None) }
        ensures err { IfErr result (λ fault. fault ≢ ChanFault.NoMemory → first_fault decls.now ≡ Some fault) }
    {
        let mut chans = Vec::new(alloc);
        for decl in decls {
            let (chan, _shelf) = Chan::<K>::build(alloc, decl.kind, decl.bound, decl.readers)?;
            chans.push(chan)?;
        }
        Ok(Plain { chans })
    }

    /// Adds an open and empty channel, which gets the next number. Returns the fault of its declaration, or `NoMemory`
    /// if allocation fails. On an error the list is unchanged.
    pub fn push(&mut self, alloc: Global, decl: Decl) -> Result<(), ChanFault>
        ensures ok { OnOk result (map (λ held. held.logged) self.new
            ≡ map (λ held. held.logged) self.old ++ opened decl ∷ []) }
        ensures others { OnOk result (take (length self.old) self.new ≡ self.old) }
        ensures fine { OnOk result (declared_fault decl.kind decl.bound decl.readers ≡ None) }
        ensures err { IfErr result (λ fault. fault ≢ ChanFault.NoMemory
            → declared_fault decl.kind decl.bound decl.readers ≡ Some fault) }
        ensures unchanged { OnErr result (self.new ≡ self.old) }
    {
        let (added, _shelf) = Chan::<K>::build(alloc, decl.kind, decl.bound, decl.readers)?;
        self.chans.push(added)?;
        Ok(())
    }

    /// Returns the channel with this number, which must exist.
    pub fn chan(&self, chan: u16) -> &Chan<K>
        requires { chan < length self.now }
        ensures { result.now.logged ≡ chan_in self.now chan }
    {
        &self.chans[chan as usize]
    }

    /// Returns the kinds of the channels, by channel number. Returns `NoMemory` if allocation fails, and no other
    /// error.
    pub fn kinds(&self, alloc: Global) -> Result<Vec<Kind>, Stop>
        ensures ok { IfOk result (λ kinds. kinds.items ≡ map (λ held. held.logged.decl.kind) self.now) }
        ensures err { IfErr result (λ stop. stop ≡ Stop.NoMemory) }
    {
        let mut kinds = Vec::new(alloc);
        for chan in self.chans.as_slice() {
            kinds.push(chan.kind())?;
        }
        Ok(kinds)
    }

    /// Returns a snapshot of a channel without its log. The channel must exist. Returns `NoMemory` if allocation fails,
    /// and no other error.
    pub fn summary(&self, chan: u16) -> Result<Summary, Stop>
        requires { chan < length self.now }
        ensures ok { IfOk result (λ summary. summary ≡ summary_of (slice_index_or self.now chan missing)) }
        ensures err { IfErr result (λ stop. stop ≡ Stop.NoMemory) }
    {
        self.chans[chan as usize].summary()
    }

    /// Proves that a transaction that fits the channels' kinds can run on them. Does nothing at run time.
    pub fn show_fits(&self, checked: &Checked, kinds: &[Kind])
        requires kinds { kinds.now ≡ map (λ held. held.logged.decl.kind) self.now }
        requires fits { Fits (slice_get kinds.now) checked.now.steps }
        ensures fits { Fits (kinds_of (chan_in self.now)) checked.now.steps }
        ensures held { (n : ℕ) → Contains checked.now.declared n → n < length self.now }
    {
        checked.show_fits(kinds);
    }
}

impl Plain<FullLog> {
    /// Returns a snapshot of a channel with its log. The channel must exist. Returns `NoMemory` if allocation fails,
    /// and no other error.
    pub fn account(&self, chan: u16) -> Result<Account, Stop>
        requires { chan < length self.now }
        ensures ok { IfOk result (λ account. account ≡ account_of (slice_index_or self.now chan missing)) }
        ensures err { IfErr result (λ stop. stop ≡ Stop.NoMemory) }
    {
        self.chans[chan as usize].account()
    }

    /// Returns snapshots of the first `count` channels, by channel number, with their logs, which are moved and not
    /// copied. Consumes the list, also on an error. Returns `NoMemory` if allocation fails, and no other error.
    pub fn into_accounts(self, alloc: Global, count: usize) -> Result<Vec<Account>, Stop>
        ensures ok { IfOk result (λ accounts. accounts.items ≡ map account_of (take count self)) }
        ensures err { IfErr result (λ stop. stop ≡ Stop.NoMemory) }
    {
        let Plain { mut chans } = self;
        chans.truncate(count);
        let mut accounts = Vec::new(alloc);
        for chan in chans {
            accounts.push(chan.into_account()?)?;
        }
        Ok(accounts)
    }
}

impl<K: Log> Hold for Plain<K> {
    ghost use Rattle.std.specs.Prelude.{◌<◌, length};
    ghost use Rattle.txc_txn.specs.Plain.{chan_in};

    ghost chans = { λ plain. chan_in plain };

    ghost IsHeld = { λ plain n. n < length plain };

    ghost Fixed = { Unit {0} };

    ghost fixed = { λ _. tt };

    fn apply<R: Append>(
        &mut self,
        rt: &R,
        chan: u16,
        tag: Tag,
        op: &Op,
        last: Option<u64>,
    ) -> Result<Answer, Stop> {
        self.chans[chan as usize].apply(rt, tag, op, last)
    }

    fn stamp(&mut self, chan: u16) -> u64 {
        self.chans[chan as usize].stamp()
    }

    fn pending(&mut self, chan: u16) -> usize {
        self.chans[chan as usize].pending()
    }

    fn log_len(&mut self, chan: u16) -> usize {
        self.chans[chan as usize].log_len()
    }

    fn entry(&mut self, chan: u16, place: usize) -> Option<Entry> {
        self.chans[chan as usize].entry(place)
    }

    fn undo_last(&mut self, chan: u16) {
        self.chans[chan as usize].undo_last()
    }
}

impl<K: Log> Settle for Plain<K> {
    fn settle(&mut self, chan: u16, stamp: u64) {
        self.chans[chan as usize].settle(stamp)
    }
}
