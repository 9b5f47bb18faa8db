// The interests of a transaction are enough.
ghost use Rattle.txc_table_interests.specs.Missed.{NoLostWakeup, OnlyThoseWait, StillWaits};

/// Proves that no wake-up is missed, and does nothing at run time. An operation that awaits nothing never waits. An
/// operation that waits still waits after any lawful change except one that it awaits. So a transaction that must be
/// retried does not commit after only changes that it has no interest in.
pub fn no_lost_wakeup()
    ensures awaits { OnlyThoseWait }
    ensures still { StillWaits }
    ensures missed { NoLostWakeup }
{}
