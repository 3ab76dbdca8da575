//! Control characters of a text, which a terminal would obey.
#![tactic(auto)]

ghost use Rattle.std.specs.Prelude.{◌≡◌, ◌++◌, ◌<◌, IfOk, OnOk};
ghost use Rattle.cron_controls.specs.Controls.{digit, is_control, shown_by, shown_byte};

use std::alloc::{AllocError, Global};

/// How control characters are written.
#[derive(Clone, Copy, Debug, PartialEq, Eq)]
pub enum Controls {
    /// Unchanged.
    Raw,
    /// Each byte as `\x1b`, for a terminal.
    Shown,
}

// Returns true if `byte` after `before` is a control character other than a tab or a line feed.
// Control characters outside of ASCII have two bytes, where the first is 194.
fn is_control(before: u8, byte: u8) -> bool
    ensures { result ≡ is_control before byte }
{
    (byte < 32 && !(byte == b'\t' || byte == b'\n'))
        || (byte == 127 || (before == 194 && (128 <= byte && byte <= 159)))
}

// A digit of base 16.
fn digit(number: u8) -> u8
    requires { number < 16 }
    ensures { result ≡ digit number }
{
    if number < 10 {
        b'0' + number
    } else {
        b'a' - 10 + number
    }
}

// Appends `byte`, which follows `before`, or its number in hexadecimal, as `\x1b`, if it is of a
// control character.
fn push_byte(made: &mut Vec<u8>, before: u8, byte: u8) -> Result<(), AllocError>
    ensures { OnOk result (made.new.items ≡ made.old.items ++ shown_byte before byte) }
{
    if !is_control(before, byte) {
        made.push(byte)?;
        return Ok(());
    }
    made.extend_from_slice(&[b'\\', b'x', digit(byte / 16), digit(byte % 16)])?;
    Ok(())
}

/// Returns a text with each byte that `is_control` finds written in hexadecimal, as `\x1b`.
pub fn shown(alloc: Global, bytes: &[u8]) -> Result<Vec<u8>, AllocError>
    ensures { IfOk result (λ made. made.items ≡ shown_by Controls.Shown bytes.now) }
{
    let mut made = Vec::new(alloc);
    let mut before = 0;
    for byte in bytes {
        push_byte(&mut made, before, *byte)?;
        before = *byte;
    }
    Ok(made)
}

/// A text with its control characters written as `controls` says.
pub fn shown_as(alloc: Global, controls: Controls, text: Vec<u8>) -> Result<Vec<u8>, AllocError>
    ensures { IfOk result (λ made. made.items ≡ shown_by controls text.items) }
{
    match controls {
        Controls::Raw => Ok(text),
        Controls::Shown => shown(alloc, text.as_slice()),
    }
}
