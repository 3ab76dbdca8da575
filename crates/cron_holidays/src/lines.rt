//! The lines of a file that aren't blank, with their numbers.
ghost use Rattle.std.specs.Prelude.{◌≡◌, ◌==◌, ◌-◌, ◌<◌, ◌≤◌, ◌∷◌, length, map, slice_index, take, if◌then◌else◌, IfOk};
ghost use Rattle.std.specs.List.{list_all, prefix_len};
ghost use Rattle.cron_tab_lines.specs.Bytes.{behind, is_blank};
ghost use Rattle.cron_tab_lines.specs.Files.{lines_of};
ghost use Rattle.cron_tab_lines.specs.Inner.Cuts.{line_len};
ghost use Rattle.cron_holidays.specs.Lines.{lines_in, without_end};
ghost use Rattle.cron_holidays.specs.Views.{line_view};

use std::alloc::{AllocError, Global};

/// A line of a file.
#[derive(Clone, Copy)]
pub(crate) struct Line<'a> {
    /// The line's number. The first line has number 1.
    pub(crate) number: usize,
    /// The line's bytes, without its end.
    pub(crate) text: &'a [u8],
}

pub(crate) fn is_blank(byte: u8) -> bool
    ensures { result ≡ is_blank byte }
{
    byte == b' ' || byte == b'\t'
}

/// The number of spaces and tabs at the front of `text`.
fn blanks_len(text: &[u8]) -> usize
    ensures is { result ≡ prefix_len is_blank text.now }
    ensures within { result ≤ length text.now }
{
    for (at, byte) in text.iter().enumerate() {
        if !is_blank(*byte) {
            return at;
        }
    }
    text.len()
}

/// The rest of `text` after the spaces and tabs at its front.
pub(crate) fn behind_blanks(text: &[u8]) -> &[u8]
    ensures { result.now ≡ behind is_blank text.now }
{
    &text[blanks_len(text)..]
}

/// Returns true if `text` has only spaces and tabs, or nothing.
fn are_blank(text: &[u8]) -> bool
    ensures { result ≡ list_all is_blank text.now }
{
    for byte in text {
        if !is_blank(*byte) {
            return false;
        }
    }
    true
}

/// The length of the first line, with its line feed.
fn line_len(text: &[u8]) -> usize
    ensures is { result ≡ line_len text.now }
    ensures within { result ≤ length text.now }
{
    for (at, byte) in text.iter().enumerate() {
        if *byte == b'\n' {
            return at + 1;
        }
    }
    text.len()
}

/// Cuts `text` into its first line, with the line feed, and the rest.
fn cut_line(text: &[u8]) -> (&[u8], &[u8])
    requires { 0 < length text.now }
    ensures lines { lines_of text.now ≡ result.0.now ∷ lines_of result.1.now }
    ensures shorter { length result.1.now < length text.now }
{
    let end = line_len(text);
    (&text[..end], &text[end..])
}

/// Returns `bytes` without the byte at its end, if that byte is `last`.
fn without_last(bytes: &[u8], last: u8) -> &[u8]
    requires { 0 < last }
    ensures { result.now ≡ (if slice_index bytes.now (length bytes.now - 1) == last
        then take (length bytes.now - 1) bytes.now
        else bytes.now) }
{
    match bytes.last() {
        Some(byte) if *byte == last => &bytes[..bytes.len() - 1],
        _ => bytes,
    }
}

/// Returns a line without the line feed, or the carriage return and the line feed, at its end.
fn without_end(bytes: &[u8]) -> &[u8]
    ensures { result.now ≡ without_end bytes.now }
{
    without_last(without_last(bytes, b'\n'), b'\r')
}

/// The lines of `file` that aren't blank.
pub(crate) fn lines_in(alloc: Global, file: &[u8]) -> Result<Vec<Line<'_>>, AllocError>
    ensures { IfOk result (λ lines. map line_view lines.items ≡ lines_in file.now) }
{
    let mut lines = Vec::new(alloc);
    let mut number = 0;
    let mut rest = file;
    while !rest.is_empty() {
        let (bytes, after) = cut_line(rest);
        number += 1;
        rest = after;
        let text = without_end(bytes);
        if !are_blank(text) {
            lines.push(Line { number, text })?;
        }
    }
    Ok(lines)
}
