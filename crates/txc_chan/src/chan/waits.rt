// Operations that have to wait.
ghost use Rattle.std.specs.Prelude.{◌≡◌, ℕ, None, Some, false, true, IfSome};
ghost use Rattle.txc_base.specs.Channel.{list_of};
ghost use Rattle.txc_base.specs.Kinds.{is_broadcast, supports};
ghost use Rattle.txc_base.specs.Operation.{Waits, operate, taking, with_list};
ghost use Rattle.txc_base.specs.declared.cause.Cause.TheVariants.{Empty, Full};
ghost use Rattle.txc_chan.specs.Chan.{writing};

use crate::chan::Chan;
use crate::log::Log;
use txc_base::{Cause, Op, Source};

impl<K: Log> Chan<K> {
    // Returns whether a write has to wait: the channel is open and at its bound.
    fn write_waits(&self) -> bool
        ensures { (seat body : ℕ) → result ≡ true
            → writing self.now.logged.channel seat (Some body) (Waits Full) ≡ Waits Full }
    {
        !self.closed && self.body.is_full()
    }

    // Returns whether a read has to wait: the channel is open, and the reader has nothing to read.
    fn read_waits(&self, reader: u16) -> bool
        requires { is_broadcast self.now.logged.channel.kind ≡ false → reader ≡ 0 }
        ensures { let c = self.now.logged.channel in result ≡ true
            → with_list (list_of c reader) (taking c reader (Waits Empty)) ≡ Waits Empty }
    {
        !self.closed && matches!(self.body.front(reader), Ok(None))
    }

    /// Returns the cause for which a write or a read has to wait: the channel is open, and full or empty. Returns
    /// `None` for any other operation, for one that does not wait, and for a write of the body that was read last. The
    /// kind of the channel must have the operation.
    pub fn cause_to_wait(&self, op: &Op) -> Option<Cause>
        requires supports { supports self.now.logged.decl.kind op.now ≡ true }
        ensures { (seat : ℕ) → IfSome result (λ cause.
            operate self.now.logged.channel seat None op.now ≡ Waits cause) }
    {
        self.show_kind();
        match *op {
            Op::Write {
                body: Source::Lit(_),
                ..
            } if self.write_waits() => Some(Cause::Full),
            Op::Read { reader, .. } if self.read_waits(reader) => Some(Cause::Empty),
            _ => None,
        }
    }
}
