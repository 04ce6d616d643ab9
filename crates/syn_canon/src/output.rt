//! Writers that may hold bytes back.
ghost use Rattle.std.specs.Prelude.{◌≡◌, [], OnOk};
ghost use Rattle.std.specs.Io.KnownBytes.{Keeps};

use std::io;
use std::io::{BufWriter, Stderr, Stdout, Write};

/// A writer whose buffered bytes, which it holds back until it is flushed, are known.
pub trait Output: Write {
    ghost use Rattle.std.specs.Prelude.{ℕ, List};

    /// The bytes that it holds back.
    ghost pending: { Self → List ℕ } = { λ _. [] };

    /// Flushes it.
    fn flush_out(&mut self) -> io::Result<()>
        ensures bytes { Keeps (Self.contents self.old) (Self.contents self.new) }
        ensures flushed { OnOk result (pending self.new ≡ []) };
}

/// It holds nothing back.
impl Output for Stdout {
    fn flush_out(&mut self) -> io::Result<()> {
        self.flush()
    }
}

/// It holds nothing back.
impl Output for Stderr {
    fn flush_out(&mut self) -> io::Result<()> {
        self.flush()
    }
}

impl<W: Write + Drop> Output for BufWriter<W> {
    ghost use Rattle.std.specs.Io.Buffered.{writer_buffer};

    ghost pending = { writer_buffer };

    fn flush_out(&mut self) -> io::Result<()> {
        self.flush()
    }
}
