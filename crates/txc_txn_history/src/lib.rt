//! One history: commits under separate locks are what one thread would have done.
#![tactic(auto)]
