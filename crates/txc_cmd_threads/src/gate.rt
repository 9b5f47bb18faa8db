// A call before a thread's first transaction.

/// A hook that a thread calls once, with no lock held, before its first transaction.
pub trait Gate {
    /// Runs the hook. It can block; other threads go on meanwhile.
    fn pass(&mut self);
}
