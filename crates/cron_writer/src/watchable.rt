//! The trait of writers that can be watched, which every writer has.

ghost use Rattle.std.specs.Prelude.{ℕ, List, ⊤, Result};
ghost use Rattle.std.specs.Io.KnownBytes.{Keeps, WriteAppends};
ghost use Rattle.std.specs.Io.{WritesAtMost};
ghost use Rattle.std.specs.declared.io.Error.{Error};

use std::io::{self, Write};

/// A writer whose calls contracts describe one by one. Only the writer's own type knows what one
/// call does. So a function over any writer whose contract promises one call makes exactly that
/// call, and no other. Every writer has this trait.
pub trait Watchable: Write {
    // one call of `write`: the writer before it, the piece, the answer, and the writer after it
    ghost writes: { Self → List ℕ → Result ℕ Error → Self → Type 0 };

    // one call of `flush`: the writer before it, the answer, and the writer after it
    ghost flushes: { Self → Result ⊤ Error → Self → Type 0 };

    /// Calls `write` once.
    fn write_once(&mut self, piece: &[u8]) -> io::Result<usize>
        ensures bound { WritesAtMost result piece.now }
        ensures bytes { WriteAppends
            (Self.contents self.old) (Self.contents self.new) result piece.now }
        ensures call { writes self.old piece.now result self.new };

    /// Calls `flush` once.
    fn flush_once(&mut self) -> io::Result<()>
        ensures bytes { Keeps (Self.contents self.old) (Self.contents self.new) }
        ensures call { flushes self.old result self.new };
}

impl<W: Write> Watchable for W {
    ghost writes = { λ old piece result new. WriteAppends
        (W.contents old) (W.contents new) result piece };

    ghost flushes = { λ old result new. Keeps (W.contents old) (W.contents new) };

    fn write_once(&mut self, piece: &[u8]) -> io::Result<usize> {
        self.write(piece)
    }

    fn flush_once(&mut self) -> io::Result<()> {
        self.flush()
    }
}
