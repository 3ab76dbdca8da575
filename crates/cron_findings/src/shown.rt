//! A line as a terminal shows it, and what stands below its bytes.

ghost use Rattle.std.specs.Prelude.{◌≡◌, ◌++◌, ◌||◌, ◌==◌, IfOk, OnOk, map};
ghost use Rattle.cron_controls.specs.Controls.{is_control};
ghost use Rattle.cron_findings.specs.Places.{blank, blanks, feed_shown, in_line, marks};

use crate::places::{left_behind, rest};
use cron_controls::shown;
use std::alloc::{AllocError, Global};

// Appends a byte, or `\x0a` for a line feed.
fn push_feed_shown(text: &mut Vec<u8>, byte: u8) -> Result<(), AllocError>
    ensures { OnOk result (text.new.items ≡ text.old.items ++ feed_shown byte) }
{
    if byte == b'\n' {
        return text.extend_from_slice(b"\\x0a");
    }
    text.extend_from_slice(&[byte])
}

/// Appends a text in one line: control characters and line feeds are written as `\x1b`.
pub(crate) fn push_in_line(
    alloc: Global,
    text: &mut Vec<u8>,
    bytes: &[u8],
) -> Result<(), AllocError>
    ensures { OnOk result (text.new.items ≡ text.old.items ++ in_line bytes.now) }
{
    let made = shown(alloc, bytes)?;
    for byte in made.as_slice() {
        push_feed_shown(text, *byte)?;
    }
    Ok(())
}

// Returns true if a byte that follows `before` is shown as `\x1b`.
fn is_shown(before: u8, byte: u8) -> bool
    ensures { result ≡ (is_control before byte || byte == 10) }
{
    (byte < 32 && byte != b'\t') || (byte == 127 || (before == 194 && (128 <= byte && byte <= 159)))
}

// Appends what stands below a byte that follows `before`, where `left` bytes of a character are
// left in front of it.
fn push_blank(made: &mut Vec<u8>, before: u8, left: usize, byte: u8) -> Result<(), AllocError>
    ensures { OnOk result (made.new.items ≡ made.old.items ++ blank before left byte) }
{
    if byte == b'\t' {
        return made.extend_from_slice(b"\t");
    }
    if is_shown(before, byte) {
        return made.extend_from_slice(b"    ");
    }
    if left == 0 {
        return made.extend_from_slice(b" ");
    }
    Ok(())
}

// What stands below bytes: a tab below a tab, and spaces below others, as many as they take.
fn blanks(alloc: Global, bytes: &[u8]) -> Result<Vec<u8>, AllocError>
    ensures { IfOk result (λ made. made.items ≡ blanks bytes.now) }
{
    let mut made = Vec::new(alloc);
    let mut before = 0;
    let mut left = 0;
    for at in 0..bytes.len() {
        let byte = bytes[at];
        push_blank(&mut made, before, left, byte)?;
        left = left_behind(left, &bytes[at..]);
        before = byte;
    }
    Ok(made)
}

/// Appends what stands below the bytes in front of a span.
pub(crate) fn push_blanks(alloc: Global, text: &mut Vec<u8>, bytes: &[u8]) -> Result<(), AllocError>
    ensures { OnOk result (text.new.items ≡ text.old.items ++ blanks bytes.now) }
{
    let made = blanks(alloc, bytes)?;
    text.extend_from_slice(made.as_slice())
}

// Appends a tilde for each column.
fn push_tildes(text: &mut Vec<u8>, columns: &[u8]) -> Result<(), AllocError>
    ensures { OnOk result (text.new.items ≡ text.old.items ++ map (λ _. 126) columns.now) }
{
    for column in columns {
        text.push(b'~')?;
    }
    Ok(())
}

/// Appends the marks below a span: a caret, and a tilde for each further column.
pub(crate) fn push_marks(alloc: Global, text: &mut Vec<u8>, bytes: &[u8]) -> Result<(), AllocError>
    ensures { OnOk result (text.new.items ≡ text.old.items ++ marks bytes.now) }
{
    let made = blanks(alloc, bytes)?;
    text.push(b'^')?;
    push_tildes(text, rest(made.as_slice(), 1))
}
