//! The lines of a file.

ghost use Rattle.std.specs.Prelude.{◌≡◌, ◌<◌, ◌≤◌, ◌∷◌, length};
ghost use Rattle.cron_tab_lines.specs.Files.{file_lines, has_mark, lines_of, numbered_outcome, without_feed, written_out};
ghost use Rattle.cron_tab_lines.specs.Inner.Cuts.{line_len};
ghost use Rattle.cron_tab_lines.specs.Views.{outcome_view};

use crate::kinds::{Crontab, Line};
use crate::lines::read_line;
use crate::refusals::Refusal;
use std::marker::Model;

/// A line of a file.
#[derive(Drop)]
pub struct FileLine<'a> {
    /// The line's number. The first line has number 1.
    pub number: usize,
    /// The line's bytes, with the line feed. The last line may have no line feed.
    pub bytes: &'a [u8],
    /// What the line is, or why it is refused.
    pub read: Result<Line<'a>, Refusal<'a>>,
}

/// An iterator over the lines of a file, with the refused ones. It allocates no memory. In
/// contracts it is the list of the lines that are left.
#[derive(Drop)]
pub struct Lines<'a> {
    kind: Crontab,
    number: usize,
    rest: &'a [u8],
}

impl<'a> Model for Lines<'a> {
    ghost use Rattle.std.specs.Prelude.{List, length, ◌+◌, ◌<◌, ◌^◌};
    ghost use Rattle.cron_tab_lines.specs.Files.{FileLine, lines_of, numbered};

    ghost Value = { List FileLine };

    ghost view = { λ l. numbered l.kind l.number (lines_of l.rest.now) };

    ghost invariant = { λ l. l.number + length l.rest.now < 2 ^ 64 };
}

/// The length of the first line, with its line feed.
fn line_len(text: &[u8]) -> usize
    ensures is { result ≡ line_len text.now }
    ensures within { result ≤ length text.now }
{
    for (at, byte) in text.iter().enumerate() {
        if *byte == b'\n' {
            return at + 1;
        }
    }
    text.len()
}

/// Cuts `text` into its first line, with the line feed, and the rest.
fn cut_line(text: &[u8]) -> (&[u8], &[u8])
    requires { 0 < length text.now }
    ensures lines { lines_of text.now ≡ result.0.now ∷ lines_of result.1.now }
    ensures shorter { length result.1.now < length text.now }
{
    let end = line_len(text);
    (&text[..end], &text[end..])
}

fn without_feed(bytes: &[u8]) -> &[u8]
    ensures { result.now ≡ without_feed bytes.now }
{
    match bytes.last() {
        Some(byte) if *byte == b'\n' => &bytes[..bytes.len() - 1],
        _ => bytes,
    }
}

/// Reads the line `number` of a file. A byte order mark at the front of line 1 is refused.
fn read_numbered<'a>(kind: Crontab, number: usize, bytes: &'a [u8]) -> Result<Line<'a>, Refusal<'a>>
    ensures { outcome_view result ≡ numbered_outcome kind number bytes.now }
{
    if number == 1 && bytes.starts_with(b"\xEF\xBB\xBF".as_slice()) {
        return Err(Refusal::ByteOrderMark);
    }
    read_line(kind, without_feed(bytes))
}

impl<'a> Lines<'a> {
    /// The lines of `file`, a crontab of `kind`. The bytes of all lines, joined, are `file`.
    pub fn of(kind: Crontab, file: &'a [u8]) -> Lines<'a>
        ensures lines { result ≡ file_lines kind file.now }
        ensures whole { written_out result ≡ file.now }
    {
        // A file in memory has at most `usize::MAX` bytes, so each line has a number.
        let _len = file.len();
        Lines {
            kind,
            number: 1,
            rest: file,
        }
    }
}

impl<'a> Iterator for Lines<'a> {
    type Item = FileLine<'a>;

    ghost use Rattle.std.specs.Iterator.{YieldsFirstBy, item_count};
    ghost use Rattle.cron_tab_lines.specs.Views.{file_line_view};

    ghost next_gives = { YieldsFirstBy file_line_view (λ rest. rest) };

    ghost remaining = { item_count (λ rest. rest) };

    fn next(&mut self) -> Option<FileLine<'a>> {
        if self.rest.is_empty() {
            return None;
        }
        let (bytes, rest) = cut_line(self.rest);
        let number = self.number;
        self.number = number + 1;
        self.rest = rest;
        Some(FileLine {
            number,
            bytes,
            read: read_numbered(self.kind, number, bytes),
        })
    }
}
