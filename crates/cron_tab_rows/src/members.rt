//! The members of an object of JSON: a fire, where an entry stands, and what it runs.
ghost use Rattle.std.specs.Prelude.{◌≡◌, ◌∷◌, [], IfOk, OnOk, string_bytes};
ghost use Rattle.std.specs.Str.Lossy.{utf8_lossy};
ghost use Rattle.hex.specs.Hex.{encode_lower};
ghost use Rattle.json.specs.Token.{key, string};
ghost use Rattle.cron_agenda.specs.Messages.{fire_text};
ghost use Rattle.cron_tab_lines.specs.Views.{bytes_view};
ghost use Rattle.cron_tab_rows.specs.Writing.{Writes};
ghost use Rattle.cron_tab_rows.specs.Members.{file_member, fire_members, input_members, number_member, place_members, string_member, task_members, text_members, user_members};
ghost use Rattle.cron_tab_rows.specs.Sources.{view};

use crate::source::Source;
use cron_agenda::EntryFire;
use cron_tab_agenda::fire_second;
use itoa::Buffer;
use json::Writer;
use std::alloc::{AllocError, Global};

/// Writes a member with a text.
pub fn write_string(object: &mut Writer, name: &str, text: &str) -> Result<(), AllocError>
    ensures { OnOk result (Writes (string_member name.now text.now) object.old object.new) }
{
    object.key(name)?;
    object.string(text)
}

/// Writes a member with a number.
pub fn write_number(object: &mut Writer, name: &str, number: u128) -> Result<(), AllocError>
    ensures { OnOk result (Writes (number_member name.now number) object.old object.new) }
{
    object.key(name)?;
    object.number(Buffer::new().format(number))
}

fn fire_string(alloc: Global, fire: &EntryFire) -> Result<String, AllocError>
    ensures { IfOk result (λ text. string_bytes text ≡ fire_text fire.now) }
{
    format!(in alloc; "{fire}")
}

/// Writes a member with a fire as it is printed, and one with its instant, in seconds since 1970.
pub fn write_fire(
    alloc: Global,
    object: &mut Writer,
    name: &str,
    epoch_name: &str,
    fire: &EntryFire,
) -> Result<(), AllocError>
    ensures { OnOk result
        (Writes (fire_members name.now epoch_name.now fire.now) object.old object.new) }
{
    write_string(object, name, fire_string(alloc, fire)?.as_str())?;
    object.key(epoch_name)?;
    object.i64(fire_second(fire))
}

// Writes the member with the file, if there is a file.
fn write_file(object: &mut Writer, name: &str, file: Option<&str>) -> Result<(), AllocError>
    ensures { OnOk result
        (Writes (file_member name.now (bytes_view file.entry)) object.old object.new) }
{
    match file {
        Some(file) => write_string(object, name, file),
        None => Ok(()),
    }
}

/// Writes the members with where an entry stands: the number of its line, and its file, if there is
/// a file.
pub fn write_place(
    object: &mut Writer,
    line_name: &str,
    file_name: &str,
    file: Option<&str>,
    line: usize,
) -> Result<(), AllocError>
    ensures { OnOk result
        (Writes (place_members line_name.now file_name.now (bytes_view file.entry) line)
        object.old object.new) }
{
    write_number(object, line_name, line as u128)?;
    write_file(object, file_name, file)
}

// Writes bytes that are no UTF-8: as a text with U+FFFD in place of what is invalid, and then in
// hexadecimal.
fn write_lossy(
    alloc: Global,
    object: &mut Writer,
    raw_name: &str,
    bytes: &[u8],
) -> Result<(), AllocError>
    ensures { OnOk result (Writes
        (string (utf8_lossy bytes.now) ∷ key raw_name.now ∷ string (encode_lower bytes.now) ∷ [])
        object.old object.new) }
{
    let text = String::from_utf8_lossy(alloc, bytes)?;
    object.string(text.as_str())?;
    object.key(raw_name)?;
    let digits = hex::encode(alloc, bytes)?;
    object.string(digits.as_str())
}

/// Writes a member with bytes as a text, and another with them in hexadecimal if they are no UTF-8.
pub fn write_bytes(
    alloc: Global,
    object: &mut Writer,
    name: &str,
    raw_name: &str,
    bytes: &[u8],
) -> Result<(), AllocError>
    ensures { OnOk result
        (Writes (text_members name.now raw_name.now bytes.now) object.old object.new) }
{
    object.key(name)?;
    match str::from_utf8(bytes) {
        Ok(text) => object.string(text),
        Err(_) => write_lossy(alloc, object, raw_name, bytes),
    }
}

// Writes the members with the user, if there is a user.
fn write_user(alloc: Global, object: &mut Writer, user: Option<&[u8]>) -> Result<(), AllocError>
    ensures { OnOk result
        (Writes (user_members (bytes_view user.entry)) object.old object.new) }
{
    match user {
        Some(user) => write_bytes(alloc, object, "user", "user_bytes", user),
        None => Ok(()),
    }
}

// Writes the members with the input, if there is input.
fn write_input(alloc: Global, object: &mut Writer, input: Option<&[u8]>) -> Result<(), AllocError>
    ensures { OnOk result
        (Writes (input_members (bytes_view input.entry)) object.old object.new) }
{
    match input {
        Some(input) => write_bytes(alloc, object, "input", "input_bytes", input),
        None => Ok(()),
    }
}

/// Writes the members with what an entry runs: the user, if there is a user, the command, and the
/// input, if there is input.
pub fn write_task(alloc: Global, object: &mut Writer, source: &Source<'_>) -> Result<(), AllocError>
    ensures { OnOk result (Writes (task_members (view source.now)) object.old object.new) }
{
    write_user(alloc, object, source.user)?;
    write_bytes(alloc, object, "command", "bytes", source.command)?;
    write_input(alloc, object, source.input)
}
