// The sorts of snapshots of a channel.
ghost use Rattle.std.specs.Prelude.{◌≡◌, IfOk, IfErr};
ghost use Rattle.txc_chan.specs.Chan.{account_of, summary_of, without_log};

use txc_base::Stop;
use txc_chan::{Account, Chan, FullLog, Log, Summary};

/// A sort of snapshot of a channel with this type of log.
pub trait SnapshotKind<K: Log> {
    ghost use Rattle.txc_chan.specs.ChanView.{ChanView};

    /// The type of the snapshot.
    type Output: Drop;

    /// The snapshot of a channel.
    ghost snapshot_of: { ChanView → Self.Output };

    /// Returns the snapshot of a channel. Returns `NoMemory` if allocation fails, and no other error.
    fn take_snapshot(chan: &Chan<K>) -> Result<Self::Output, Stop>
        ensures ok { IfOk result (λ all. all ≡ snapshot_of chan.now) }
        ensures err { IfErr result (λ stop. stop ≡ Stop.NoMemory) };
}

/// The snapshot of a channel with its log.
pub struct WithLog;

impl SnapshotKind<FullLog> for WithLog {
    type Output = Account;

    ghost snapshot_of = { account_of };

    fn take_snapshot(chan: &Chan<FullLog>) -> Result<Account, Stop> {
        chan.account()
    }
}

/// The snapshot of a channel with an empty log. The channel's log can be moved there once the channel is no longer
/// needed.
pub struct WithoutLog;

impl SnapshotKind<FullLog> for WithoutLog {
    type Output = Account;

    ghost snapshot_of = { λ held. without_log (account_of held) };

    fn take_snapshot(chan: &Chan<FullLog>) -> Result<Account, Stop> {
        chan.account_without_log()
    }
}

/// The snapshot of a channel without its log, but with the length of the log.
pub struct Summarized;

impl<K: Log> SnapshotKind<K> for Summarized {
    type Output = Summary;

    ghost snapshot_of = { summary_of };

    fn take_snapshot(chan: &Chan<K>) -> Result<Summary, Stop> {
        chan.summary()
    }
}
