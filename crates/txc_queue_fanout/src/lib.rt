//! A broadcast list that stores no item that all its readers have read. Each reader has its own queue. A written item
//! is in the queue of each reader that has not read it, and in no other place. Each change can be undone. A call that
//! cannot return `NoMemory` or `AllocError` does not allocate, so no undo does. If a call fails, the list is unchanged.
//! No call blocks.
#![tactic(auto)]

mod fanout;

pub use fanout::Fanout;
