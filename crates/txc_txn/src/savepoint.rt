// A point of a run, to go back to.
ghost use Rattle.std.specs.Prelude.{◌≡◌, ◌≤◌, ℕ, Contains, All, length, take};
ghost use Rattle.txc_base.specs.declared.tag.Tag.{Tag};
ghost use Rattle.txc_chan.specs.Logged.{MatchesLog};
ghost use Rattle.txc_txn_check.specs.Limits.{max_declared};
ghost use Rattle.txc_txn.specs.Growth.{IsMarked, marks_of};
ghost use Rattle.txc_txn.specs.Maps.{Map};

use crate::hold::Hold;
use crate::trace::Trace;
use crate::undo::{Marks, mark_all, undo_all};

/// How far a trace was at some point, and the marks of the declared channels.
#[derive(Drop)]
pub struct Savepoint {
    pub last: Option<u64>,
    pub replies: usize,
    pub deeds: usize,
    pub marks: Marks,
}

impl Savepoint {
    /// Returns the current point of a trace and the declared channels.
    pub fn of<H: Hold>(hold: &mut H, declared: &[u16], trace: &Trace) -> Savepoint
        requires held { (n : ℕ) → Contains declared.now n → H.IsHeld hold.old n }
        requires few { length declared.now ≤ max_declared }
        ensures last { result.last ≡ trace.now.last }
        ensures replies { result.replies ≡ length trace.now.replies.items }
        ensures deeds { result.deeds ≡ length trace.now.deeds.items }
        ensures marks { result.marks.items ≡ marks_of (H.chans hold.old) declared.now }
        ensures lawful { All (λ n. MatchesLog (H.chans hold.old n)) declared.now }
        ensures same { hold.new ≡ hold.old }
    {
        let mut marks = Marks::new();
        mark_all(hold, declared, &mut marks);
        Savepoint {
            last: trace.last,
            replies: trace.replies.len(),
            deeds: trace.deeds.len(),
            marks,
        }
    }

    /// Undoes the declared channels down to the marks, and removes from a trace what was added since.
    pub fn restore<H: Hold>(&self, hold: &mut H, declared: &[u16], trace: &mut Trace)
        requires held { (n : ℕ) → Contains declared.now n → H.IsHeld hold.old n }
        requires marks { length self.now.marks.items ≡ length declared.now }
        ensures held { (n : ℕ) → H.IsHeld hold.old n → H.IsHeld hold.new n }
        ensures back { (tag : Tag) (before : Map)
            → IsMarked tag declared.now self.now.marks.items before (H.chans hold.old)
            → H.chans hold.new ≡ before }
        ensures fixed { H.fixed hold.new ≡ H.fixed hold.old }
        ensures last { trace.new.last ≡ self.now.last }
        ensures replies { trace.new.replies.items ≡ take self.now.replies trace.old.replies.items }
        ensures deeds { trace.new.deeds.items ≡ take self.now.deeds trace.old.deeds.items }
    {
        undo_all(hold, declared, self.marks.as_slice());
        trace.last = self.last;
        trace.replies.truncate(self.replies);
        trace.deeds.truncate(self.deeds);
    }
}
