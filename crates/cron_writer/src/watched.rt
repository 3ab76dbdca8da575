//! A writer that remembers whether it failed, and a loop that passes a whole text to it.

ghost use Rattle.std.specs.Prelude.{◌≡◌, ◌||◌, ◌++◌, ℕ, List, Option, false, true};
ghost use Rattle.std.specs.Io.KnownBytes.{Keeps, WriteAppends};
ghost use Rattle.std.specs.Io.{WritesAtMost};
ghost use Rattle.cron_writer.specs.Calls.{HandsOn};
ghost use Rattle.cron_writer.specs.Watching.{has_failed, writer_of, is_failed_write, is_failed_flush, IsSent};

use crate::watchable::Watchable;
use std::io;

/// A writer, and whether a call of it failed. Once `failed` is true it stays so.
#[derive(Drop)]
pub struct Watched<W> {
    writer: W,
    failed: bool,
}

impl<W> Watched<W> {
    /// Watches a writer. No call counts as failed yet.
    pub fn new(writer: W) -> Watched<W>
        ensures writer { writer_of result ≡ writer }
        ensures mark { has_failed result ≡ false }
    {
        Watched {
            writer,
            failed: false,
        }
    }

    /// Whether a write or a flush failed, or a write took no byte of a piece that isn't empty.
    pub fn has_failed(&self) -> bool
        ensures { result ≡ has_failed self.now }
    {
        self.failed
    }

    /// Returns the writer.
    pub fn into_inner(self) -> W
        ensures { result ≡ writer_of self }
    {
        let Watched { writer, .. } = self;
        writer
    }
}

// Whether a write failed, or took no byte of a piece that isn't empty. It only borrows the answer,
// so that the proof of `write` needs no cases.
#[inline(always)]
fn is_failed_write(answer: &io::Result<usize>, piece: &[u8]) -> bool
    ensures { result ≡ is_failed_write answer.now piece.now }
{
    match answer {
        Ok(0) => !piece.is_empty(),
        Ok(_) => false,
        Err(_) => true,
    }
}

impl<W: Watchable> Watched<W> {
    /// Calls `write` of the writer once, and returns what it returns.
    pub fn write(&mut self, piece: &[u8]) -> io::Result<usize>
        ensures call { W.writes (writer_of self.old) piece.now result (writer_of self.new) }
        ensures bound { WritesAtMost result piece.now }
        ensures bytes { WriteAppends
            (W.contents (writer_of self.old)) (W.contents (writer_of self.new)) result piece.now }
        ensures mark { has_failed self.new
            ≡ (has_failed self.old || is_failed_write result piece.now) }
    {
        let result = self.writer.write_once(piece);
        self.failed |= is_failed_write(&result, piece);
        result
    }

    /// Calls `flush` of the writer once, and returns what it returns.
    pub fn flush(&mut self) -> io::Result<()>
        ensures call { W.flushes (writer_of self.old) result (writer_of self.new) }
        ensures bytes { Keeps (W.contents (writer_of self.old)) (W.contents (writer_of self.new)) }
        ensures mark { has_failed self.new ≡ (has_failed self.old || is_failed_flush result) }
    {
        let result = self.writer.flush_once();
        if result.is_err() {
            self.failed = true;
        }
        result
    }
}

// Passes the whole text to the writer, in as many writes as it takes, and stops at the first
// failure.
fn send_whole<W: Watchable>(out: &mut Watched<W>, text: &[u8])
    requires { has_failed out.old ≡ false }
    ensures sent { IsSent
        (W.contents (writer_of out.old)) (W.contents (writer_of out.new)) (has_failed out.new)
        text.now }
    ensures calls { HandsOn W.writes
        (writer_of out.old) (has_failed out.old) (writer_of out.new) (has_failed out.new) text.now }
{
    let mut rest = text;
    while !rest.is_empty() {
        match out.write(rest) {
            Ok(count) if count > 0 => rest = &rest[count..],
            _ => return,
        }
    }
}

/// Passes a text to the writer, after the texts before it, or nothing once a call has failed.
pub fn send<W: Watchable>(out: &mut Watched<W>, text: &[u8])
    ensures sent { (origin : Option (List ℕ)) (before : List ℕ)
        → IsSent origin (W.contents (writer_of out.old)) (has_failed out.old) before
        → IsSent origin (W.contents (writer_of out.new)) (has_failed out.new) (before ++ text.now) }
    ensures untouched { has_failed out.old ≡ true → out.new ≡ out.old }
    ensures calls { HandsOn W.writes
        (writer_of out.old) (has_failed out.old) (writer_of out.new) (has_failed out.new) text.now }
{
    if !out.has_failed() {
        send_whole(out, text);
    }
}
