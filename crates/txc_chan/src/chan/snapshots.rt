// Snapshots of a channel, and what is proved of its log.
ghost use Rattle.std.specs.Prelude.{◌≡◌, ◌↔◌, Some, length, slice_get, IfOk, IfErr, IfSome, IsTrue};
ghost use Rattle.txc_base.specs.Channel.{opening};
ghost use Rattle.txc_base.specs.InOrder.{written};
ghost use Rattle.txc_cast.specs.Sights.{IsOf};
ghost use Rattle.txc_chan.specs.Body.{slots_for};
ghost use Rattle.txc_chan.specs.Chan.{account_of, summary_of, ObeysLaws, without_log};
ghost use Rattle.txc_chan.specs.Logged.{MatchesLog};

use crate::account::Account;
use crate::chan::Chan;
use crate::full_log::FullLog;
use crate::log::Log;
use crate::summary::Summary;
use txc_base::{Entry, List, Stop};
use txc_base_laws as laws;
use txc_cast::Sight;

impl<K: Log> Chan<K> {
    // Returns the number of readers that it opened with.
    fn first_readers(&self) -> u16
        ensures { let decl = self.now.logged.decl in result ≡ length (opening decl.kind decl.bound decl.readers).lists }
    {
        let readers = self.body.readers();
        if !self.decl.kind.is_broadcast() {
            return 1;
        }
        prove!(self.decl.readers <= u64::from(readers));
        self.decl.readers as u16
    }

    /// Proves the laws of logs for this channel, and does nothing at run time. Each reader has read, or has still to
    /// read, what was written since it began. The item that was put back last is read next. After a close nothing is
    /// written, put back or closed. Each item of a queue was taken or is left, exactly once.
    pub fn show_laws(&self)
        ensures { ObeysLaws self.now.logged.decl.kind self.now.logged.log self.now.logged.channel.lists }
    {
        self.show();
        laws::in_order();
        laws::next();
        laws::stays_closed();
        laws::once();
    }

    /// Returns a snapshot of the channel without its log. Returns `NoMemory` if allocation fails, and no other error.
    /// Allocates.
    pub fn summary(&self) -> Result<Summary, Stop>
        ensures ok { IfOk result (λ summary. summary ≡ summary_of self.now) }
        ensures err { IfErr result (λ e. e ≡ Stop.NoMemory) }
    {
        let remaining = self.body.lists(self.log.allocator())?;
        Ok(Summary {
            kind: self.decl.kind,
            bound: self.bound(),
            closed: self.closed(),
            log_len: self.log_len(),
            remaining: List::from_vec(remaining),
        })
    }
}

impl Chan<FullLog> {
    /// Returns whether the written item number `place`, from 0, is at the slot of this sight, which must be of this
    /// channel's shelf. If so, it is the sight's item. Returns `false` for a queue.
    pub fn agrees(&self, place: usize, sight: &Sight) -> bool
        requires { IfSome self.now.shelf (λ shelf. IsOf shelf sight.now) }
        ensures slot { IsTrue result ↔ (slice_get self.now.slots place ≡ Some sight.now.slot) }
        ensures item { IsTrue result → slice_get (written self.now.logged.log) place ≡ Some sight.now.item }
    {
        // Only for the proof: opens the invariant of the type.
        let _fields = &self.log;
        self.body.agrees(place, sight)
    }

    /// Returns the whole log, in order.
    pub fn log(&self) -> &[Entry]
        ensures { result.now ≡ self.now.logged.log }
    {
        self.log.all()
    }

    /// Returns a snapshot of the channel with its log. Returns `NoMemory` if allocation fails, and no other error.
    /// Allocates.
    pub fn account(&self) -> Result<Account, Stop>
        ensures ok { IfOk result (λ account. account ≡ account_of self.now) }
        ensures laws { IfOk result (λ account. ObeysLaws account.kind account.log account.remaining) }
        ensures slots { IfOk result (λ account. length account.slots ≡ slots_for account.kind (written account.log)) }
        ensures lawful { MatchesLog self.now.logged }
        ensures err { IfErr result (λ e. e ≡ Stop.NoMemory) }
    {
        self.show();
        self.show_laws();
        let log = Vec::from_slice(self.log.allocator(), self.log.all())?;
        let mut account = self.account_without_log()?;
        account.log = List::from_vec(log);
        Ok(account)
    }

    /// Returns a snapshot of the channel with an empty log instead of its own. Returns `NoMemory` if allocation fails,
    /// and no other error. Allocates.
    pub fn account_without_log(&self) -> Result<Account, Stop>
        ensures ok { IfOk result (λ account. account ≡ without_log (account_of self.now)) }
        ensures err { IfErr result (λ e. e ≡ Stop.NoMemory) }
    {
        let alloc = self.log.allocator();
        let remaining = self.body.lists(alloc)?;
        let slots = self.body.slots(alloc)?;
        Ok(Account {
            kind: self.decl.kind,
            bound: self.bound(),
            first_readers: self.first_readers(),
            closed: self.closed,
            log: List::from_vec(Vec::new(alloc)),
            remaining: List::from_vec(remaining),
            slots: List::from_vec(slots),
        })
    }

    /// Returns the whole log, in order. Consumes the channel.
    pub fn into_log(self) -> Vec<Entry>
        ensures { result.items ≡ self.logged.log }
    {
        let Chan {
            decl: _,
            body: _,
            closed: _,
            written: _,
            backs: _,
            log,
            stamp: _,
        } = self;
        log.into_all()
    }

    /// Returns a snapshot of the channel with its log, which is moved and not copied. Consumes the channel, also on an
    /// error. Returns `NoMemory` if allocation fails, and no other error. Allocates.
    pub fn into_account(self) -> Result<Account, Stop>
        ensures ok { IfOk result (λ account. account ≡ account_of self) }
        ensures err { IfErr result (λ e. e ≡ Stop.NoMemory) }
    {
        let mut account = self.account_without_log()?;
        account.log = List::from_vec(self.into_log());
        Ok(account)
    }
}
