// A writer whose failures and flushes a contract can name.
ghost use Rattle.std.specs.Prelude.{◌≡◌, ◌<◌, ◌≤◌, ⊤, false, length, take, IsTrue};
ghost use Rattle.std.specs.Io.KnownBytes.{Appends, Keeps};

use std::io::Write;

/// A writer whose failures and flushes a contract can name. Each `Write` is one.
///
/// In a function over any `Output`, only `put` and `finish` show a proof that the writer has failed, and only `finish`
/// shows that it was flushed.
pub trait Output: Write {
    // The last call of the writer failed, or took none of the bytes.
    ghost HasFailed: { Self → Type 0 };

    // The last call of the writer was a flush that succeeded.
    ghost IsFlushed: { Self → Type 0 };

    /// Writes some of the bytes, at least one. Returns how many. Returns 0 if the writer fails or takes no bytes.
    /// Blocks if the writer blocks.
    fn put(&mut self, bytes: &[u8]) -> usize
        requires { 0 < length bytes.now }
        ensures bound { result ≤ length bytes.now }
        ensures bytes { Appends (Self.contents self.old) (Self.contents self.new) (take result bytes.now) }
        ensures failed { result ≡ 0 → HasFailed self.new };

    /// Flushes the writer. Returns whether the flush succeeded. Blocks if the writer blocks.
    fn finish(&mut self) -> bool
        ensures bytes { Keeps (Self.contents self.old) (Self.contents self.new) }
        ensures flushed { IsTrue result → IsFlushed self.new }
        ensures failed { result ≡ false → HasFailed self.new };
}

impl<W: Write> Output for W {
    ghost HasFailed = { λ _. ⊤ };

    ghost IsFlushed = { λ _. ⊤ };

    fn put(&mut self, bytes: &[u8]) -> usize {
        self.write(bytes).unwrap_or(0)
    }

    fn finish(&mut self) -> bool {
        self.flush().is_ok()
    }
}
