//! Texts as GitHub's workflows and references of URIs have them.

ghost use Rattle.std.specs.Prelude.{◌≡◌, ◌++◌, IfOk, OnOk, string_bytes};
ghost use Rattle.std.specs.List.{flat_map};
ghost use Rattle.cron_findings.specs.Escapes as escapes;
ghost use Rattle.cron_findings.specs.Escapes.{begins_with_machine, data_byte, data_text, is_data_escaped, is_path_byte, path_byte, property_byte, property_text};

use percent_encoding::percent_encode_byte;
use std::alloc::{AllocError, Global};

fn is_data_escaped(byte: u8) -> bool
    ensures { result ≡ is_data_escaped byte }
{
    byte == b'%' || byte == b'\r' || byte == b'\n'
}

// Appends a byte of a message, or its escape.
fn push_data_byte(text: &mut Vec<u8>, byte: u8) -> Result<(), AllocError>
    ensures { OnOk result (text.new.items ≡ text.old.items ++ data_byte byte) }
{
    if is_data_escaped(byte) {
        return text.extend_from_slice(percent_encode_byte(byte).as_bytes());
    }
    text.extend_from_slice(&[byte])
}

// Appends a byte of a property, or its escape.
fn push_property_byte(text: &mut Vec<u8>, byte: u8) -> Result<(), AllocError>
    ensures { OnOk result (text.new.items ≡ text.old.items ++ property_byte byte) }
{
    if is_data_escaped(byte) || byte == b':' || byte == b',' {
        return text.extend_from_slice(percent_encode_byte(byte).as_bytes());
    }
    text.extend_from_slice(&[byte])
}

/// Appends a message of a workflow's command.
pub(crate) fn push_data(text: &mut Vec<u8>, message: &str) -> Result<(), AllocError>
    ensures { OnOk result (text.new.items ≡ text.old.items ++ data_text message.now) }
{
    for byte in message.as_bytes() {
        push_data_byte(text, *byte)?;
    }
    Ok(())
}

/// Appends the value of a property of a workflow's command.
pub(crate) fn push_property(text: &mut Vec<u8>, value: &str) -> Result<(), AllocError>
    ensures { OnOk result (text.new.items ≡ text.old.items ++ property_text value.now) }
{
    for byte in value.as_bytes() {
        push_property_byte(text, *byte)?;
    }
    Ok(())
}

// ---- URIs

// Returns true if a path of a URI has the byte unescaped.
fn is_path_byte(byte: u8) -> bool
    ensures { result ≡ is_path_byte byte }
{
    byte.is_ascii_alphanumeric()
        || (byte == b'-' || (byte == b'.' || (byte == b'_' || (byte == b'~' || byte == b'/'))))
}

// Appends a byte of a path, or its escape.
fn push_path_byte(path: &mut String, byte: u8) -> Result<(), AllocError>
    ensures { OnOk result (string_bytes path.new ≡ string_bytes path.old ++ path_byte byte) }
{
    if is_path_byte(byte) {
        return path.push(char::from(byte));
    }
    path.push_str(percent_encode_byte(byte))
}

// Appends a path as a URI has it.
fn push_path(path: &mut String, file: &[u8]) -> Result<(), AllocError>
    ensures { OnOk result
        (string_bytes path.new ≡ string_bytes path.old ++ flat_map path_byte file.now) }
{
    for byte in file {
        push_path_byte(path, *byte)?;
    }
    Ok(())
}

// Returns true if the path begins with two slashes. Behind them a URI has the name of a machine.
fn begins_with_machine(file: &[u8]) -> bool
    ensures { result ≡ begins_with_machine file.now }
{
    match file {
        [first, second, ..] => *first == b'/' && *second == b'/',
        _ => false,
    }
}

/// The name of a file as a reference of a URI.
pub(crate) fn uri(alloc: Global, file: &str) -> Result<String, AllocError>
    ensures { IfOk result (λ made. string_bytes made ≡ escapes.uri file.now) }
{
    let mut made = String::new(alloc);
    if begins_with_machine(file.as_bytes()) {
        made.push_str("/.")?;
    }
    push_path(&mut made, file.as_bytes())?;
    Ok(made)
}
