// The source of the body of a new item.
ghost use Rattle.std.specs.Prelude.{Some};
ghost use Rattle.txc_base.specs.Text.{source_text};

use std::fmt;

/// The body that a write or a put-back gives its item.
#[derive(Debug, Clone, Copy, PartialEq, Eq)]
pub enum Source {
    /// This number.
    Lit(u64),
    /// The body that this transaction read or peeked last.
    Last,
}

// The form that a script has.
impl fmt::Display for Source {
    ghost output = { λ source. Some (source_text source) };

    fn fmt<W: fmt::Write>(&self, f: &mut fmt::Formatter<W>) -> fmt::Result {
        match self {
            Source::Lit(body) => write!(f, "{body}"),
            Source::Last => f.write_str("\"last\""),
        }
    }
}
