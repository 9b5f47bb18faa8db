//! Reads the words of the command line and the bytes of any reader, and writes bytes to any writer.
//!
//! A function that returns no `Result` does not allocate. A function blocks only if its reader or writer can block.
#![tactic(auto)]

mod bytes;
mod output;
mod words;

pub use bytes::{read_limited, write_text};
pub use output::Output;
pub use words::{Action, ArgsFault, parse_args, read_args};
