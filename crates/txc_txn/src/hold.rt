// Held channels.
ghost use Rattle.std.specs.Prelude.{◌≡◌, ◌≢◌, ◌<◌, ◌≤◌, ◌+◌, ℕ, true, length, slice_get, IfOk, IfErr, OnErr};
ghost use Rattle.txc_base.specs.Kinds.{supports};
ghost use Rattle.txc_chan.specs.Logged.{MatchesLog, Logged, op_on, did, UnlessReplied, Stopped, Undone};
ghost use Rattle.txc_txn.specs.Maps.{put_at};

use txc_base::{Entry, Op, Stop, Tag};
use txc_chan::{Answer, Append};

/// Numbered channels, some of them held. A method that takes the number of a channel does what the method of `Chan`
/// with its name does. That channel must be held, and the other channels are unchanged.
pub trait Hold {
    /// The channel with each number, with its log.
    ghost chans: { Self → ℕ → Logged };

    /// Whether the channel with a number is held.
    ghost IsHeld: { Self → ℕ → Type 0 };

    /// The type of the data that no call changes.
    ghost Fixed: { Type 0 };

    /// The data that no call changes.
    ghost fixed: { Self → Fixed };

    /// Runs an operation that the channel's kind supports. Returns the stop if the operation aborts, and `NoMemory` if
    /// allocation fails. After an error or a retry the channel is unchanged. Blocks only if the handle permits it.
    fn apply<R: Append>(
        &mut self,
        rt: &R,
        chan: u16,
        tag: Tag,
        op: &Op,
        last: Option<u64>,
    ) -> Result<Answer, Stop>
        requires held { IsHeld self.old chan }
        requires supports { supports (chans self.old chan).decl.kind op.now ≡ true }
        ensures held { (n : ℕ) → IsHeld self.old n → IsHeld self.new n }
        ensures others { chans self.new ≡ put_at (chans self.old) chan (chans self.new chan) }
        ensures ok { IfOk result (λ answer. op_on (chans self.old chan)
            tag last op.now ≡ did answer (chans self.new chan)) }
        ensures err { IfErr result (λ stop. stop ≢ Stop.NoMemory
            → op_on (chans self.old chan) tag last op.now ≡ Stopped stop) }
        ensures retry { IfOk result (λ answer. UnlessReplied answer (chans self.new chan ≡ chans self.old chan)) }
        ensures unchanged { OnErr result (chans self.new chan ≡ chans self.old chan) }
        ensures fixed { fixed self.new ≡ fixed self.old };

    /// Returns the stamp of a held channel.
    fn stamp(&mut self, chan: u16) -> u64
        requires { IsHeld self.old chan }
        ensures value { result ≡ (chans self.old chan).stamp }
        ensures same { self.new ≡ self.old };

    /// Returns how many entries of a held channel's log can be undone.
    fn pending(&mut self, chan: u16) -> usize
        requires { IsHeld self.old chan }
        ensures value { result ≡ (chans self.old chan).pending }
        ensures lawful { MatchesLog (chans self.old chan) }
        ensures same { self.new ≡ self.old };

    /// Returns how many entries a held channel's log has.
    fn log_len(&mut self, chan: u16) -> usize
        requires { IsHeld self.old chan }
        ensures value { result ≡ length (chans self.old chan).log }
        ensures same { self.new ≡ self.old };

    /// Returns the entry at this place of a held channel's log. It must be one that can be undone.
    fn entry(&mut self, chan: u16, place: usize) -> Option<Entry>
        requires held { IsHeld self.old chan }
        requires pending { length (chans self.old chan).log ≤ place + (chans self.old chan).pending }
        ensures value { result ≡ slice_get (chans self.old chan).log place }
        ensures same { self.new ≡ self.old };

    /// Removes the last entry of the channel's log and undoes it. It must be one that can be undone.
    fn undo_last(&mut self, chan: u16)
        requires held { IsHeld self.old chan }
        requires pending { 0 < (chans self.old chan).pending }
        ensures held { (n : ℕ) → IsHeld self.old n → IsHeld self.new n }
        ensures others { chans self.new ≡ put_at (chans self.old) chan (chans self.new chan) }
        ensures undone { Undone (chans self.old chan) (chans self.new chan) }
        ensures fixed { fixed self.new ≡ fixed self.old };
}
