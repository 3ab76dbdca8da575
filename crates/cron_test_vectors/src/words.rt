//! The words of a cell.

use anyhow::{Context, Result, bail};
use cron::schedule::Moment;
use jiff::civil::DateTime;
use jiff::tz::Offset;
use std::alloc::Global;

/// Splits a text after its first word.
pub(crate) fn first_word(text: &str) -> (&str, &str) {
    match text.split_once(' ') {
        Some(parts) => parts,
        None => (text, ""),
    }
}

/// Reads what a clock shows, and how many seconds it is ahead of UTC.
pub(crate) fn reading_of(text: &str) -> Result<(DateTime, Offset)> {
    let (shown, ahead) = first_word(text);
    let offset = Offset::from_seconds(ahead.parse::<i32>()?)?;
    Ok((shown.parse::<DateTime>()?, offset))
}

/// Reads the moment with these two parts.
pub(crate) fn moment_of(text: &str) -> Result<Moment> {
    let (shown, offset) = reading_of(text)?;
    Moment::from_parts(shown, offset).context("no civil second of the range")
}

/// Appends the byte that the first two characters of `text` are as hexadecimal digits, and the rest
/// of `text`.
fn push_numbered(bytes: &mut Vec<u8>, text: &str) -> Result<()> {
    let digits = text.get(..2).context("two digits are wanted")?;
    bytes.push(u8::from_str_radix(digits, 16)?)?;
    bytes.extend_from_slice(text.get(2..).unwrap_or("").as_bytes())?;
    Ok(())
}

/// Reads `text` like `a*1000}`: appends `a` 1000 times, and then the text after the brace.
fn push_repeated(bytes: &mut Vec<u8>, text: &str) -> Result<()> {
    let (word, rest) = text.split_once('}').context("a brace is wanted")?;
    let (character, times) = word.split_once('*').context("a star is wanted")?;
    for _ in 0..times.parse::<u32>()? {
        bytes.extend_from_slice(character.as_bytes())?;
    }
    bytes.extend_from_slice(rest.as_bytes())?;
    Ok(())
}

/// Appends the bytes for `text`, which follows a backslash.
fn push_escaped(bytes: &mut Vec<u8>, text: &str) -> Result<()> {
    let (byte, rest) = match text.split_at_checked(1) {
        Some(("x", rest)) => return push_numbered(bytes, rest),
        Some(("{", rest)) => return push_repeated(bytes, rest),
        Some(("n", rest)) => (b'\n', rest),
        Some(("r", rest)) => (b'\r', rest),
        Some(("t", rest)) => (b'\t', rest),
        _ => bail!("{text:?} follows no backslash"),
    };
    bytes.push(byte)?;
    bytes.extend_from_slice(rest.as_bytes())?;
    Ok(())
}

/// The bytes that a text of a row stands for: `\n`, `\r`, `\t` and `\xff` are one byte each, and
/// `\{a*1000}` is the letter `a` a thousand times.
pub(crate) fn bytes_of(alloc: Global, text: &str) -> Result<Vec<u8>> {
    let mut bytes = Vec::new(alloc);
    let mut pieces = text.split('\\');
    if let Some(front) = pieces.next() {
        bytes.extend_from_slice(front.as_bytes())?;
    }
    for piece in pieces {
        push_escaped(&mut bytes, piece)?;
    }
    Ok(bytes)
}

/// The arguments of a command line, which are separated by `;`. An empty line has no arguments.
pub(crate) fn arguments_of(alloc: Global, line: &str) -> Result<Vec<String>> {
    let mut arguments = Vec::new(alloc);
    for argument in line.split(';') {
        arguments.push(String::from_str(alloc, argument)?)?;
    }
    if line.is_empty() {
        arguments.truncate(0);
    }
    Ok(arguments)
}
