//! Ghost state for a list that only grows. A [`ListAuth`] is the only right to change what the list is. It is stored
//! with the list, under the same lock. The thread that holds the lock can take a [`ListPrefix`] from it, a lasting
//! token that the list has been what it was then. Of two tokens of one list, the longer list begins with the shorter
//! one. These values have no bytes. Their calls do nothing at run time: they return no error, do not block and do not
//! allocate.
#![tactic(auto)]

mod list_auth;
mod list_prefix;

pub use list_auth::{ListAuth, Tells};
pub use list_prefix::ListPrefix;
