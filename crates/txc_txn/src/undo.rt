// Marks in the logs of channels, and undoing down to them.
ghost use Rattle.std.specs.Prelude.{◌≡◌, ◌≤◌, ℕ, [], Contains, All, length};
ghost use Rattle.txc_base.specs.declared.tag.Tag.{Tag};
ghost use Rattle.txc_chan.specs.Logged.{Logged, MatchesLog};
ghost use Rattle.txc_txn_check.specs.Limits.{max_declared};
ghost use Rattle.txc_txn.specs.Growth.{Grows, IsMarked, marks_of};
ghost use Rattle.txc_txn.specs.Maps.{Map, kinds_of, put_at};

use crate::hold::Hold;
use arrayvec::ArrayVec;
use txc_txn_check::MAX_DECLARED;

/// How many entries of each declared channel could be undone.
pub type Marks = ArrayVec<usize, MAX_DECLARED>;

/// Notes in `marks`, which must be empty, how many entries of each declared channel can be undone. The marks are not
/// returned, because the copy would take longer than noting them.
pub fn mark_all<H: Hold>(hold: &mut H, declared: &[u16], marks: &mut Marks)
    requires held { (n : ℕ) → Contains declared.now n → H.IsHeld hold.old n }
    requires few { length declared.now ≤ max_declared }
    requires empty { marks.old.items ≡ [] }
    ensures marks { marks.new.items ≡ marks_of (H.chans hold.old) declared.now }
    ensures lawful { All (λ n. MatchesLog (H.chans hold.old n)) declared.now }
    ensures same { hold.new ≡ hold.old }
{
    for chan in declared {
        marks.push(hold.pending(*chan));
    }
}

/// Undoes entries of a channel until at most `mark` entries can be undone.
pub fn undo_to<H: Hold>(hold: &mut H, chan: u16, mark: usize)
    requires held { H.IsHeld hold.old chan }
    ensures held { (n : ℕ) → H.IsHeld hold.old n → H.IsHeld hold.new n }
    ensures others { H.chans hold.new ≡ put_at (H.chans hold.old) chan (H.chans hold.new chan) }
    ensures kinds { kinds_of (H.chans hold.new) ≡ kinds_of (H.chans hold.old) }
    ensures back { (tag : Tag) (before : Logged) → MatchesLog before → before.pending ≡ mark
        → Grows tag before (H.chans hold.old chan) → H.chans hold.new chan ≡ before }
    ensures fixed { H.fixed hold.new ≡ H.fixed hold.old }
{
    while hold.pending(chan) > mark {
        hold.undo_last(chan);
    }
}

/// Undoes the declared channels down to their marks.
pub fn undo_all<H: Hold>(hold: &mut H, declared: &[u16], marks: &[usize])
    requires held { (n : ℕ) → Contains declared.now n → H.IsHeld hold.old n }
    requires marks { length marks.now ≡ length declared.now }
    ensures held { (n : ℕ) → H.IsHeld hold.old n → H.IsHeld hold.new n }
    ensures kinds { kinds_of (H.chans hold.new) ≡ kinds_of (H.chans hold.old) }
    ensures back { (tag : Tag) (before : Map) → IsMarked tag declared.now marks.now before (H.chans hold.old)
        → H.chans hold.new ≡ before }
    ensures fixed { H.fixed hold.new ≡ H.fixed hold.old }
{
    for i in 0..declared.len() {
        undo_to(hold, declared[i], marks[i]);
    }
}
