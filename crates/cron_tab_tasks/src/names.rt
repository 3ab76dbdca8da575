//! The names of an entry's files.

ghost use Rattle.std.specs.Prelude.{◌≡◌, ◌++◌, ◌∷◌, IfOk, OnOk, map, option_map, string_bytes, take};
ghost use Rattle.cron_shell.specs.Lines.{variable_view};
ghost use Rattle.cron_tab_lines.specs.Files.{without_feed};
ghost use Rattle.cron_tab_lines.specs.Views.{bytes_view};
ghost use Rattle.cron_tab_tasks.specs.Names.{digest_text, file_in, file_within, is_kept, kept, known_by, name_of};

use crate::values::zone_of;
use cron_shell::Variable;
use sha2::{Digest, Sha256};
use std::alloc::{AllocError, Global};

/// The number of bytes of a line that the names of its files show.
const SHOWN: usize = 64;

/// The number of bytes of a digest that a file's name shows.
const TOLD: usize = 8;

fn is_kept(byte: u8) -> bool
    ensures { result ≡ is_kept byte }
{
    byte.is_ascii_alphanumeric() || byte == b'-' || byte == b'.' || byte == b'_'
}

// The byte that a file's name has for `byte`: `_` if `byte` isn't allowed in names, else `byte`.
fn kept(byte: u8) -> u8
    ensures { result ≡ kept byte }
{
    if is_kept(byte) { byte } else { b'_' }
}

fn push_kept(name: &mut Vec<u8>, text: &[u8]) -> Result<(), AllocError>
    ensures { OnOk result (name.new.items ≡ name.old.items ++ map kept text.now) }
{
    for byte in text {
        name.push(kept(*byte))?;
    }
    Ok(())
}

fn without_feed(bytes: &[u8]) -> &[u8]
    ensures { result.now ≡ without_feed bytes.now }
{
    match bytes.last() {
        Some(byte) if *byte == b'\n' => &bytes[..bytes.len() - 1],
        _ => bytes,
    }
}

// The key of an entry: its zone, a tab and its line. The entry's digest is made of this key.
fn known_by(alloc: Global, zone: &[u8], line: &[u8]) -> Result<Vec<u8>, AllocError>
    ensures { IfOk result (λ key. key.items ≡ known_by zone.now line.now) }
{
    let mut key = Vec::from_slice(alloc, zone)?;
    key.push(b'\t')?;
    key.extend_from_slice(line)?;
    Ok(key)
}

// The digest of `text`: the first 8 bytes of its SHA-256, in hexadecimal digits.
fn digest_of(alloc: Global, text: &[u8]) -> Result<String, AllocError>
    ensures { IfOk result (λ digits. string_bytes digits ≡ digest_text text.now) }
{
    let digest = Sha256::digest(text);
    hex::encode(alloc, &digest[..TOLD])
}

// The first 64 bytes of `line`, or all of it if it is shorter.
fn front_of(line: &[u8]) -> &[u8]
    ensures { result.now ≡ take 64 line.now }
{
    if line.len() > SHOWN {
        &line[..SHOWN]
    } else {
        line
    }
}

// Appends the name of the entry `line` in `zone`: the front of the line, a dash and the digest.
fn push_name(file: &mut Vec<u8>, alloc: Global, zone: &[u8], line: &[u8]) -> Result<(), AllocError>
    ensures { OnOk result (file.new.items ≡ file.old.items ++ name_of zone.now line.now) }
{
    let key = known_by(alloc, zone, line)?;
    let digest = digest_of(alloc, key.as_slice())?;
    push_kept(file, front_of(line))?;
    file.push(b'-')?;
    file.extend_from_slice(digest.as_str().as_bytes())?;
    Ok(())
}

// The path in `folder` of the file with `ending` that belongs to the entry `line` in `zone`.
fn file_within(
    alloc: Global,
    folder: &[u8],
    zone: &[u8],
    line: &[u8],
    ending: &[u8],
) -> Result<Vec<u8>, AllocError>
    ensures { IfOk result (λ file. file.items
        ≡ file_within folder.now zone.now line.now ending.now) }
{
    let mut file = Vec::from_slice(alloc, folder)?;
    file.push(b'/')?;
    push_name(&mut file, alloc, zone, line)?;
    file.extend_from_slice(ending)?;
    Ok(file)
}

/// The path in `folder` of the file with `ending` that belongs to the entry of `line`, in the zone
/// that `variables` set. `None` if `folder` is `None`.
pub(crate) fn file_in(
    alloc: Global,
    folder: Option<&[u8]>,
    variables: &[Variable<'_>],
    line: &[u8],
    ending: &[u8],
) -> Result<Option<Vec<u8>>, AllocError>
    ensures { IfOk result (λ file. option_map (λ f. f.items) file
        ≡ file_in (bytes_view folder.entry) (map variable_view variables.now) line.now
        ending.now) }
{
    let Some(folder) = folder else {
        return Ok(None);
    };
    let zone = zone_of(variables);
    let text = without_feed(line);
    Ok(Some(file_within(alloc, folder, zone, text, ending)?))
}
