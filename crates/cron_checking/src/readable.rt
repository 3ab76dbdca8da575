//! The trait of readers that give lines, which every reader has.

ghost use Rattle.std.specs.Prelude.{◌≡◌, ◌≤◌, ◌+◌, ◌++◌, ℕ, List, IfOk, IfSome, OnErr, OnOk, Result, vec_len};
ghost use Rattle.std.specs.Io.BufRead.{take_through, DropsThrough};
ghost use Rattle.std.specs.Io.KnownBytes.{Consumes, IsAtEnd};
ghost use Rattle.std.specs.Io.{StartsWith, StopsAt, appended_bytes};
ghost use Rattle.std.specs.declared.io.Error.{Error};

use std::io::{self, BufRead};

/// A reader whose calls contracts describe one by one. Only the reader's own type knows what one
/// call does. So a function over any reader whose contract promises one call makes exactly that
/// call, and no other. Every reader has this trait.
pub trait Readable: BufRead {
    // one call of `read_until`, at a line feed: the reader before it, the answer, the bytes that
    // were read, and the reader after it
    ghost reads: { Self → Result ℕ Error → List ℕ → Self → Type 0 };

    /// Calls `read_until` once, up to and including the next line feed, and returns how many bytes
    /// it appended to `line`.
    fn read_once(&mut self, line: &mut Vec<u8>) -> io::Result<usize>
        ensures ok { IfOk result (λ n. vec_len line.new ≡ vec_len line.old + n) }
        ensures err { OnErr result (vec_len line.old ≤ vec_len line.new) }
        ensures appends { StartsWith line.new.items line.old.items }
        ensures stops { StopsAt (appended_bytes line.old.items line.new.items) 10 }
        ensures bytes { OnOk result (IfSome (Self.remaining self.old)
            (λ xs. line.new.items ≡ line.old.items ++ take_through 10 xs)) }
        ensures rest { OnOk result
            (DropsThrough (Self.remaining self.old) (Self.remaining self.new) 10) }
        ensures end { IfOk result (λ n. n ≡ 0 → IsAtEnd (Self.remaining self.old)) }
        ensures none_lost { Consumes
            (Self.remaining self.old) (Self.remaining self.new)
            (appended_bytes line.old.items line.new.items) }
        ensures call { reads self.old result
            (appended_bytes line.old.items line.new.items) self.new };
}

impl<R: BufRead> Readable for R {
    ghost reads = { λ old result bytes new. Consumes (R.remaining old) (R.remaining new) bytes };

    fn read_once(&mut self, line: &mut Vec<u8>) -> io::Result<usize> {
        self.read_until(b'\n', line)
    }
}
