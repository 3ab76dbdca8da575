//! The files that zones are read from.

ghost use Rattle.std.specs.Prelude.{ℕ, List, Result};
ghost use Rattle.std.specs.declared.io.Error.{Error};
ghost use Rattle.std.specs.declared.vec.Vec.{Vec};
ghost use Rattle.std.specs.declared.alloc.Global.{Global};

use std::alloc::Global;
use std::io;

/// Files, by their paths. Contracts describe each call by itself: only the type that implements
/// this knows what one call may do. So a function that promises one call reads one file.
pub trait ZoneFiles {
    // one call: the files before it, the path, the answer, and the files after it
    ghost reads: { Self → List ℕ → Result (Vec ℕ Global) Error → Self
        → Type 0 } = { λ _ _ _ _. Unit {0} };

    /// Reads the file at `path` whole.
    fn read(&mut self, alloc: Global, path: &str) -> io::Result<Vec<u8>>
        ensures { reads self.old path.now result self.new };
}
