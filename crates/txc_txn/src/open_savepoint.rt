// A point of an open transaction, to roll back to.
ghost use Rattle.std.specs.Prelude.{◌≡◌, ℕ, Contains, All, IfOk, length, take};
ghost use Rattle.txc_chan.specs.Logged.{MatchesLog};
ghost use Rattle.txc_txn.specs.Growth.{marks_of};

use crate::hold::Hold;
use crate::trace::Trace;
use std::alloc::{AllocError, Global};

/// A point of an open transaction that the transaction can be rolled back to.
#[derive(Drop)]
pub struct OpenSavepoint {
    /// The body that the transaction had read or peeked last.
    pub last: Option<u64>,
    /// The number of its replies.
    pub replies: usize,
    /// The number of its acts.
    pub deeds: usize,
    /// For each channel that it had touched, how many entries could be undone.
    pub marks: Vec<usize>,
}

impl OpenSavepoint {
    /// Returns the current point of a transaction with these touched channels and this trace. Returns `AllocError` if
    /// allocation fails.
    pub fn of<H: Hold>(
        alloc: Global,
        hold: &mut H,
        touched: &[u16],
        trace: &Trace,
    ) -> Result<OpenSavepoint, AllocError>
        requires held { (n : ℕ) → Contains touched.now n → H.IsHeld hold.old n }
        ensures trace { IfOk result (λ point. (point.last ≡ trace.now.last)
            × (point.replies ≡ length trace.now.replies.items) × (point.deeds ≡ length trace.now.deeds.items)) }
        ensures marks { IfOk result (λ point. (point.marks.items ≡ marks_of (H.chans hold.old) touched.now)
            × All (λ n. MatchesLog (H.chans hold.old n)) touched.now) }
        ensures same { hold.new ≡ hold.old }
    {
        let mut marks = Vec::new(alloc);
        for chan in touched {
            marks.push(hold.pending(*chan))?;
        }
        Ok(OpenSavepoint {
            last: trace.last,
            replies: trace.replies.len(),
            deeds: trace.deeds.len(),
            marks,
        })
    }

    /// Removes from a trace what was added since this point.
    pub fn truncate_trace(&self, trace: &mut Trace)
        ensures last { trace.new.last ≡ self.now.last }
        ensures replies { trace.new.replies.items ≡ take self.now.replies trace.old.replies.items }
        ensures deeds { trace.new.deeds.items ≡ take self.now.deeds trace.old.deeds.items }
    {
        trace.last = self.last;
        trace.replies.truncate(self.replies);
        trace.deeds.truncate(self.deeds);
    }
}
