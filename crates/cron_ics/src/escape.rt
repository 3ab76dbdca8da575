//! Texts as values of RFC 5545. No value may hold a control character, except a tab and a line
//! feed.
ghost use Rattle.std.specs.Prelude.{◌≡◌, ◌++◌, IfOk, OnOk};
ghost use Rattle.cron_ics.specs.Events.{summary_line};
ghost use Rattle.cron_ics.specs.Texts.{escaped, escaped_byte, is_control, shown, shown_byte};

use std::alloc::{AllocError, Global};

// Whether `byte` is a control character that no value may hold. It is false for a tab and a line
// feed.
fn is_control(byte: u8) -> bool
    ensures { result ≡ is_control byte }
{
    (byte < 32 && !(byte == b'\t' || byte == b'\n')) || byte == 127
}

// Appends a byte, or U+FFFD in place of a control character that no value may hold.
fn push_shown(text: &mut Vec<u8>, byte: u8) -> Result<(), AllocError>
    ensures { OnOk result (text.new.items ≡ text.old.items ++ shown_byte byte) }
{
    if is_control(byte) {
        return text.extend_from_slice(&[239, 191, 189]);
    }
    text.extend_from_slice(&[byte])
}

// A text with U+FFFD in place of each byte that no value may hold.
fn shown(alloc: Global, text: &[u8]) -> Result<Vec<u8>, AllocError>
    ensures { IfOk result (λ list. list.items ≡ shown text.now) }
{
    let mut list = Vec::new(alloc);
    for byte in text {
        push_shown(&mut list, *byte)?;
    }
    Ok(list)
}

// Appends a byte, escaped for a value of RFC 5545.
fn push_byte(line: &mut Vec<u8>, byte: u8) -> Result<(), AllocError>
    ensures { OnOk result (line.new.items ≡ line.old.items ++ escaped_byte byte) }
{
    match byte {
        b'\n' => line.extend_from_slice(b"\\n"),
        b'\\' | b';' | b',' => line.extend_from_slice(&[b'\\', byte]),
        _ => line.extend_from_slice(&[byte]),
    }
}

// Appends a text, escaped for a value of RFC 5545.
fn push_escaped(line: &mut Vec<u8>, text: &[u8]) -> Result<(), AllocError>
    ensures { OnOk result (line.new.items ≡ line.old.items ++ escaped text.now) }
{
    for byte in text {
        push_byte(line, *byte)?;
    }
    Ok(())
}

/// The line of a summary. U+FFFD replaces bytes that aren't UTF-8, and control characters other
/// than a tab and a line feed.
pub(crate) fn summary_line(alloc: Global, text: &[u8]) -> Result<Vec<u8>, AllocError>
    ensures { IfOk result (λ line. line.items ≡ summary_line text.now) }
{
    let text = String::from_utf8_lossy(alloc, text)?;
    let list = shown(alloc, text.as_str().as_bytes())?;
    let mut line = Vec::from_slice(alloc, b"SUMMARY:")?;
    push_escaped(&mut line, list.as_slice())?;
    Ok(line)
}
