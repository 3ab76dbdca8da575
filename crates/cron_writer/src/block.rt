//! An array for gathering bytes.

ghost use Rattle.std.specs.Prelude.{◌≡◌, ◌≤◌, ◌+◌, ◌++◌, [], length, nat_le, take};

use std::marker::Model;

/// The most bytes that are gathered. A pipe takes this many in one piece, even if others write to
/// it too.
pub const ROOM: usize = 4096;

/// The most bytes of a short text. Each short text is copied as this many bytes, since a copy of a
/// known length is a few instructions.
pub const WIDTH: usize = 32;

/// The size of the array. After the last text it has room for the copy of a short one.
const SIZE: usize = ROOM + WIDTH;

/// The bytes that were gathered.
#[derive(Drop)]
pub(crate) struct Block {
    bytes: [u8; SIZE],
    len: usize,
}

impl Model for Block {
    ghost use Rattle.std.specs.Prelude.{◌≤◌, ℕ, List, take};

    ghost Value = { List ℕ };

    ghost view = { λ b. take b.len b.bytes };

    ghost invariant = { λ b. b.len ≤ 4096 };
}

impl Block {
    /// Makes an array with no byte gathered.
    pub(crate) fn new() -> Block
        ensures { result ≡ [] }
    {
        Block {
            bytes: [0; SIZE],
            len: 0,
        }
    }

    /// Whether there is room for `more` bytes.
    #[inline(always)]
    pub(crate) fn has_room(&self, more: usize) -> bool
        ensures { result ≡ nat_le (length self.now + more) 4096 }
    {
        more <= ROOM - self.len
    }

    /// Gathers `text` after the bytes gathered before.
    #[inline(always)]
    pub(crate) fn push(&mut self, text: &[u8])
        requires { length self.old + length text.now ≤ 4096 }
        ensures { self.new ≡ self.old ++ text.now }
    {
        let end = self.len + text.len();
        self.bytes[self.len..end].copy_from_slice(text);
        self.len = end;
    }

    /// Gathers the first `len` bytes of a short text, after the bytes gathered before.
    #[inline(always)]
    pub(crate) fn push_front(&mut self, text: &[u8; WIDTH], len: usize)
        requires short { len ≤ 32 }
        requires room { length self.old + len ≤ 4096 }
        ensures { self.new ≡ self.old ++ take len text.now }
    {
        let end = self.len + WIDTH;
        self.bytes[self.len..end].copy_from_slice(text);
        self.len += len;
    }

    /// The bytes that were gathered.
    #[inline(always)]
    pub(crate) fn as_slice(&self) -> &[u8]
        ensures { result.now ≡ self.now }
    {
        &self.bytes[..self.len]
    }

    /// Forgets what was gathered.
    #[inline(always)]
    pub(crate) fn clear(&mut self)
        ensures { self.new ≡ [] }
    {
        self.len = 0;
    }
}
