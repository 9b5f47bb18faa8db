// The channels of a script during its replay.
ghost use Rattle.std.specs.Prelude.{◌≡◌, ◌<◌, ◌≤◌, IfOk, IfErr, length, map, slice_index_or, take};
ghost use Rattle.txc_chan.specs.Chan.{account_of, summary_of};
ghost use Rattle.txc_chan.specs.Decls.{kinds_in};
ghost use Rattle.txc_txn.specs.Opening.{opening_map};
ghost use Rattle.txc_txn.specs.Plain.{chan_in, missing};

use std::alloc::Global;
use std::marker::Model;
use txc_base::{Kind, Stop};
use txc_chan::{Account, FullLog, Summary};
use txc_cmd_script::Script;
use txc_txn::Plain;

/// The channels of a script, and their kinds by their numbers.
#[derive(Drop)]
pub struct Channels {
    pub(crate) plain: Plain<FullLog>,
    pub(crate) kinds: Vec<Kind>,
}

impl Model for Channels {
    ghost use Rattle.txc_txn.specs.Opening.{HasKinds};
    ghost use Rattle.txc_cmd_replay.specs.Rounds.{ChannelsWithKinds};

    ghost Value = { ChannelsWithKinds };

    ghost view = { λ channels. record { held = channels.plain; kinds = channels.kinds.items } };

    ghost invariant = { λ channels. HasKinds channels.plain channels.kinds.items };
}

impl Channels {
    /// Makes open and empty channels, as a script declares them. Fails with `NoMemory` if allocation fails.
    pub fn open(alloc: Global, script: &Script) -> Result<Channels, Stop>
        ensures opening { IfOk result (λ channels. chan_in channels.held ≡ opening_map script.now.decls) }
        ensures kinds { IfOk result (λ channels. channels.kinds ≡ kinds_in script.now.decls) }
        ensures err { IfErr result (λ stop. stop ≡ Stop.NoMemory) }
    {
        script.show();
        // Each channel of a script can be made, so the build fails only if allocation fails.
        let plain = Plain::<FullLog>::build(alloc, script.decls()).map_err(|_| Stop::NoMemory)?;
        let kinds = plain.kinds(alloc)?;
        Ok(Channels { plain, kinds })
    }

    /// Returns a snapshot of a channel without its log. The channel must exist. Fails with `NoMemory` if allocation
    /// fails.
    pub fn summary(&self, chan: u16) -> Result<Summary, Stop>
        requires { chan < length self.now.kinds }
        ensures ok { IfOk result (λ summary. summary ≡ summary_of (slice_index_or self.now.held chan missing)) }
        ensures err { IfErr result (λ stop. stop ≡ Stop.NoMemory) }
    {
        self.plain.summary(chan)
    }

    /// Converts each channel into an account, in order. Fails with `NoMemory` if allocation fails.
    pub(crate) fn into_accounts(self, alloc: Global) -> Result<Vec<Account>, Stop>
        ensures ok { IfOk result (λ accounts. accounts.items ≡ map account_of (take (length self.kinds) self.held)) }
        ensures there { length self.kinds ≤ length self.held }
        ensures err { IfErr result (λ stop. stop ≡ Stop.NoMemory) }
    {
        let Channels { plain, kinds } = self;
        plain.into_accounts(alloc, kinds.len())
    }
}
