// The laws of logs. Each function is a lemma: a proof calls it, and it does nothing when it runs.
ghost use Rattle.std.specs.Prelude.{◌≡◌, ◌+◌, List, length};
ghost use Rattle.txc_base.specs.Counts.{put, took, other, IsCounted};
ghost use Rattle.txc_base.specs.InOrder.{IsInOrder, written};
ghost use Rattle.txc_base.specs.Next.{IsNext, returned};
ghost use Rattle.txc_base.specs.Once.{IsOnce};
ghost use Rattle.txc_base.specs.StaysClosedLaw.{StaysClosed};
ghost use Rattle.txc_base.specs.declared.entry.Entry.{Entry};
ghost use Rattle.txc_base_laws.specs.Laws.{Always, InQueues, LogsItsActs, StaysTrue, IsDetermined, TakesBack};
ghost use Rattle.txc_base_laws.specs.Laws.{StaysTrueBack};
ghost use Rattle.txc_base_laws.specs.Laws.{TakesInOrder, AlwaysKeeps, IsClosedByItsLog, IsNumbered};

mod examples;

/// Shows that the items each reader took, followed by its remaining items, are the items written since it began, in
/// order. Put-backs are left out.
pub fn in_order()
    ensures { Always IsInOrder }
{}

/// Shows that the first item a reader takes after its last put-back is the item that was put back. If the reader has
/// taken no item since, its list begins with that item.
pub fn next()
    ensures { Always IsNext }
{}

/// Shows that after a closing no item is written or put back, and the channel is not closed again. A channel is closed
/// exactly if its log has a closing.
pub fn stays_closed()
    ensures nothing_more { Always (λ log lists. StaysClosed log) }
    ensures flag { IsClosedByItsLog }
{}

/// Shows that each item that was written to a queue or put back was taken or remains, exactly once. No other item was
/// taken or remains.
pub fn once()
    ensures { InQueues IsOnce }
{}

/// Shows that the items put into a queue are as many as those taken and those that remain. Each entry of a log counts
/// as put, took or other, and the counts of a channel are those of its log.
pub fn counts()
    ensures balance { InQueues IsCounted }
    ensures sorts { (log : List Entry) → put log + took log + other log ≡ length log }
    ensures numbers { IsNumbered }
    ensures returned { InQueues (λ log list. length (written log) + length (returned 0 log) ≡ put log) }
{}

/// Shows that the acts of an operation, logged in order, lead to the channel after the operation. The channel then is
/// true to its log with these acts.
pub fn operation()
    ensures acts { LogsItsActs }
    ensures truth { StaysTrue }
{}

/// Shows that a channel is determined by its declaration and its log.
pub fn determined()
    ensures { IsDetermined }
{}

/// Shows that the channel before its last entry is determined by the channel now and the act of that entry. A written
/// item that the last entry took is the one written just before the reader's remaining items. The channel before its
/// last entry is true to its log without that entry.
pub fn undo()
    ensures before { TakesBack }
    ensures truth { StaysTrueBack }
    ensures order { TakesInOrder }
{}

/// Shows that a channel keeps its kind, its bound and its readers. Only a channel of a kind that can be closed is
/// closed.
pub fn declared()
    ensures { AlwaysKeeps }
{}
