//! Lines of a reader, read one by one.

ghost use Rattle.std.specs.Prelude.{◌≡◌, ◌==◌, ◌<◌, ◌-◌, length, slice_index};
ghost use Rattle.std.specs.Io.{StopsAt};
ghost use Rattle.cron_checking.specs.Reading.{Gives, IsCut};
ghost use Rattle.cron_checking.specs.Reads.{IsRead};

use crate::readable::Readable;
use std::io::ErrorKind;

/// What a reader gave when a line was read.
#[derive(Clone, Copy)]
pub(crate) enum Given {
    /// A line, without the line feed that ended it. `last` is true if it had none, and so is the
    /// last one.
    Line { last: bool },
    /// No line: the reader had no byte left.
    End,
    /// Memory ran out for a line, as the allocator or the reader said.
    OutOfMemory,
    /// A call of the reader failed.
    Unreadable,
}

// Returns true if the last byte is a line feed.
fn has_line_feed(piece: &[u8]) -> bool
    requires { 0 < length piece.now }
    ensures { result ≡ (slice_index piece.now (length piece.now - 1) == 10) }
{
    piece[piece.len() - 1] == b'\n'
}

// Removes the line feed at the end, and returns true if there was one.
fn cut_line_feed(line: &mut Vec<u8>) -> bool
    requires some { 0 < length line.old.items }
    requires one { StopsAt line.old.items 10 }
    ensures { IsCut line.old.items line.new.items result }
{
    if !has_line_feed(line.as_slice()) {
        return false;
    }
    let _line_feed = line.pop();
    true
}

/// Reads the next line into `line`, in place of its content, by one call of the reader.
pub(crate) fn read_line<R: Readable>(reader: &mut R, line: &mut Vec<u8>) -> Given
    ensures gives { Gives (R.remaining reader.old) (R.remaining reader.new) line.new.items result }
    ensures call { IsRead R.reads reader.old reader.new result }
{
    line.clear();
    match reader.read_once(line) {
        Ok(0) => Given::End,
        Ok(_) => Given::Line {
            last: !cut_line_feed(line),
        },
        Err(error) if error.kind() == ErrorKind::OutOfMemory => Given::OutOfMemory,
        Err(_) => Given::Unreadable,
    }
}
