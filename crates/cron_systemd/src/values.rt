//! Texts in the values of settings, as systemd reads them back.

ghost use Rattle.std.specs.Prelude.{◌≡◌, ◌<◌, ◌++◌, OnOk};
ghost use Rattle.std.specs.Char.{digit_char};
ghost use Rattle.cron_systemd.specs.Texts.{escaped, is_plain, is_quoted, is_sign, written, written_byte};

use std::alloc::AllocError;

/// Where a text is written.
#[derive(Clone, Copy)]
pub(crate) enum Form {
    /// An argument of a command, between quotes. `%` and `$` are written twice.
    Argument,
    /// A variable with its value, between quotes. `%` is written twice.
    Variable,
    /// The input of a command, without quotes. `%` is written twice.
    Input,
}

fn is_quoted(form: Form) -> bool
    ensures { result ≡ is_quoted form }
{
    matches!(form, Form::Argument | Form::Variable)
}

fn is_sign(form: Form, byte: u8) -> bool
    ensures { result ≡ is_sign form byte }
{
    match form {
        Form::Argument => byte == b'%' || byte == b'$',
        Form::Variable | Form::Input => byte == b'%',
    }
}

fn is_plain(quoted: bool, byte: u8) -> bool
    ensures { result ≡ is_plain quoted byte }
{
    (32 < byte && byte < 127) || (quoted && byte == b' ')
}

// The hexadecimal digit of a number below 16.
fn digit(number: u8) -> u8
    requires { number < 16 }
    ensures { result ≡ digit_char number }
{
    if number < 10 {
        b'0' + number
    } else {
        87 + number
    }
}

// Appends a byte, or the escape that means it.
fn push_escaped(text: &mut Vec<u8>, quoted: bool, byte: u8) -> Result<(), AllocError>
    ensures { OnOk result (text.new.items ≡ text.old.items ++ escaped quoted byte) }
{
    if byte == b'\\' || byte == b'"' {
        return text.extend_from_slice(&[b'\\', byte]);
    }
    if is_plain(quoted, byte) {
        return text.extend_from_slice(&[byte]);
    }
    text.extend_from_slice(&[b'\\', b'x', digit(byte / 16), digit(byte % 16)])
}

// Appends a byte as a text of this form has it.
fn push_byte(text: &mut Vec<u8>, form: Form, byte: u8) -> Result<(), AllocError>
    ensures { OnOk result (text.new.items ≡ text.old.items ++ written_byte form byte) }
{
    let quoted = is_quoted(form);
    if is_sign(form, byte) {
        push_escaped(text, quoted, byte)?;
    }
    push_escaped(text, quoted, byte)
}

/// Appends bytes as a text of this form has them, without the quotes.
pub(crate) fn push_written(text: &mut Vec<u8>, form: Form, bytes: &[u8]) -> Result<(), AllocError>
    ensures { OnOk result (text.new.items ≡ text.old.items ++ written form bytes.now) }
{
    for byte in bytes {
        push_byte(text, form, *byte)?;
    }
    Ok(())
}
