// Held channels that can be settled one by one.
ghost use Rattle.std.specs.Prelude.{◌≡◌, ℕ};
ghost use Rattle.txc_chan.specs.Logged.{settled};
ghost use Rattle.txc_txn.specs.Maps.{put_at};

use crate::hold::Hold;

/// Channels whose changes can be made final one channel at a time. Channels under locks cannot: the thread that holds
/// the locks settles them together.
pub trait Settle: Hold {
    /// Makes all changes of the channel final, and gives the channel this stamp.
    fn settle(&mut self, chan: u16, stamp: u64)
        requires held { Self.IsHeld self.old chan }
        ensures held { (n : ℕ) → Self.IsHeld self.old n → Self.IsHeld self.new n }
        ensures settled { Self.chans self.new ≡ put_at (Self.chans self.old)
            chan (settled stamp (Self.chans self.old chan)) }
        ensures fixed { Self.fixed self.new ≡ Self.fixed self.old };
}
