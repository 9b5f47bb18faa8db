//! The exports of the static library that C and Rust programs link: the calls of `yalwythen_domain`, which take a
//! domain by its address in the caller's memory.
//!
//! No function blocks.
#![tactic(auto)]

mod border;
mod calls;
