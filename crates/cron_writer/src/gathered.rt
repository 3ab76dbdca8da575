//! Lines gathered in an array, and passed to a writer many at a time.

ghost use Rattle.std.specs.Prelude.{◌≡◌, ◌≤◌, ◌<◌, ◌+◌, ◌++◌, ℕ, List, [], Option, length, take, true};
ghost use Rattle.cron_writer.specs.Calls.{AreWrites, Gathers, HandsOn};
ghost use Rattle.cron_writer.specs.Watching.{has_failed, kept_in, writer_of, IsGathered, IsSent};

use crate::block::Block;
pub use crate::block::{ROOM, WIDTH};
use crate::watchable::Watchable;
use crate::watched::{Watched, send};

/// Lines that were gathered and are not passed to the writer yet.
#[derive(Drop)]
pub struct Gathered {
    block: Block,
}

impl Gathered {
    /// Makes an array with no line gathered.
    pub fn new() -> Gathered
        ensures { kept_in result ≡ [] }
    {
        Gathered {
            block: Block::new(),
        }
    }

    // Passes what was gathered to the writer, if there is no room for `more` bytes.
    #[inline(always)]
    fn make_room<W: Watchable>(&mut self, more: usize, out: &mut Watched<W>)
        requires { more ≤ 4096 }
        ensures room { length (kept_in self.new) + more ≤ 4096 }
        ensures gathered { (origin : Option (List ℕ)) (text : List ℕ)
            → IsGathered origin
            (W.contents (writer_of out.old)) (has_failed out.old) (kept_in self.old) text
            → IsGathered origin
            (W.contents (writer_of out.new)) (has_failed out.new) (kept_in self.new) text }
        ensures calls { AreWrites W.writes
            (writer_of out.old) (has_failed out.old) (writer_of out.new) (has_failed out.new) }
        ensures held { length (kept_in self.old) + more ≤ 4096
            → (out.new ≡ out.old) × (kept_in self.new ≡ kept_in self.old) }
        ensures handed { 4096 < length (kept_in self.old) + more
            → HandsOn W.writes
            (writer_of out.old) (has_failed out.old)
            (writer_of out.new) (has_failed out.new) (kept_in self.old)
            × (kept_in self.new ≡ []) }
    {
        if !self.block.has_room(more) {
            self.send(out);
        }
    }

    /// Gathers a line of at most [`ROOM`] bytes after the others. If it has no room, the others are
    /// passed to the writer first.
    pub fn push_line<W: Watchable>(&mut self, line: &[u8], out: &mut Watched<W>)
        requires { length line.now ≤ 4096 }
        ensures gathered { (origin : Option (List ℕ)) (before : List ℕ)
            → IsGathered origin
            (W.contents (writer_of out.old)) (has_failed out.old) (kept_in self.old) before
            → IsGathered origin
            (W.contents (writer_of out.new)) (has_failed out.new) (kept_in self.new)
            (before ++ line.now) }
        ensures calls { AreWrites W.writes
            (writer_of out.old) (has_failed out.old) (writer_of out.new) (has_failed out.new) }
        ensures gathers { Gathers W.writes out.old out.new
            (kept_in self.old) (kept_in self.new) line.now }
    {
        self.make_room(line.len(), out);
        self.block.push(line);
    }

    /// Gathers a short line after the others: the first `len` of `bytes`. All of `bytes` are
    /// copied. If the line has no room, the others are passed to the writer first.
    #[inline(always)]
    pub fn push_short<W: Watchable>(
        &mut self,
        bytes: &[u8; WIDTH],
        len: usize,
        out: &mut Watched<W>,
    )
        requires { len ≤ 32 }
        ensures gathered { (origin : Option (List ℕ)) (before : List ℕ)
            → IsGathered origin
            (W.contents (writer_of out.old)) (has_failed out.old) (kept_in self.old) before
            → IsGathered origin
            (W.contents (writer_of out.new)) (has_failed out.new) (kept_in self.new)
            (before ++ take len bytes.now) }
        ensures calls { AreWrites W.writes
            (writer_of out.old) (has_failed out.old) (writer_of out.new) (has_failed out.new) }
        ensures gathers { Gathers W.writes out.old out.new
            (kept_in self.old) (kept_in self.new) (take len bytes.now) }
    {
        self.make_room(len, out);
        self.block.push_front(bytes, len);
    }

    /// Passes what was gathered to the writer, or drops it if a call of the writer has failed.
    /// Afterwards nothing is gathered.
    pub fn send<W: Watchable>(&mut self, out: &mut Watched<W>)
        ensures empty { kept_in self.new ≡ [] }
        ensures sent { (origin : Option (List ℕ)) (text : List ℕ)
            → IsGathered origin
            (W.contents (writer_of out.old)) (has_failed out.old) (kept_in self.old) text
            → IsSent origin (W.contents (writer_of out.new)) (has_failed out.new) text }
        ensures untouched { has_failed out.old ≡ true → out.new ≡ out.old }
        ensures calls { HandsOn W.writes
            (writer_of out.old) (has_failed out.old)
            (writer_of out.new) (has_failed out.new) (kept_in self.old) }
    {
        send(out, self.block.as_slice());
        self.block.clear();
    }
}
