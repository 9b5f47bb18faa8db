// The words of a lock.

/// The number of words. Only two of them are used. The others keep these two off the cache lines of other data.
pub(crate) const WORDS: usize = 17;

/// The index of the word that says whether the lock is free. It is the last word, since the value is allocated after
/// the words. Most allocators put the value next to the words, so one cache line holds this word and the beginning of
/// the value.
pub(crate) const STATE: usize = 16;

/// The index of a word that is never written. A thread that comes to the lock reads it, which takes no cache line from
/// another thread.
pub(crate) const STILL: usize = 8;

/// The words of a new lock, which is free.
pub(crate) const NEW: [u64; WORDS] = [0, 0, 0, 0, 0, 0, 0, 0, 0, 0, 0, 0, 0, 0, 0, 0, FREE];

/// The lock is free for any thread.
pub(crate) const FREE: u64 = 1;

/// The lock is reserved for the thread that has claimed it.
pub(crate) const RESERVED: u64 = 4;

/// The lock is taken, and no thread sleeps.
pub(crate) const TAKEN: u64 = 0;

/// The lock is taken, and a thread may sleep until it is free.
pub(crate) const AWAITED: u64 = 2;

/// The lock is taken, and a thread that has slept too often claims it.
pub(crate) const CLAIMED: u64 = 3;
