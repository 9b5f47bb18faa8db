// Why a transaction retries.
ghost use Rattle.std.specs.Prelude.{Some};
ghost use Rattle.txc_base.specs.Text.{cause_text};

use std::fmt;

/// Why a transaction retries.
#[derive(Debug, Clone, Copy, PartialEq, Eq)]
pub enum Cause {
    /// A channel with a bound holds its bound or more.
    Full,
    /// There is nothing to read.
    Empty,
    /// The transaction asked to retry.
    Asked,
}

impl fmt::Display for Cause {
    ghost output = { λ cause. Some (cause_text cause) };

    fn fmt<W: fmt::Write>(&self, f: &mut fmt::Formatter<W>) -> fmt::Result {
        f.write_str(match self {
            Cause::Full => "full",
            Cause::Empty => "empty",
            Cause::Asked => "asked",
        })
    }
}
