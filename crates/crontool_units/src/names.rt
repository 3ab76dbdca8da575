//! The names of units.

use std::alloc::{AllocError, Global};

/// The number of bytes of a file's name that the names of its units have. A unit's name has at most
/// 255.
const MOST: usize = 200;

/// The front of units' names for standard input.
const STANDARD_INPUT: &str = "crontab";

// The name of a file without its folder.
fn base_of(path: &str) -> &str {
    match path.rsplit_once('/') {
        Some((_, name)) => name,
        None => path,
    }
}

// Whether a unit's name may have `byte`. systemd passes over a file whose name begins with a dot,
// and a program would take one that begins with a dash for an option.
fn is_kept(byte: u8, first: bool) -> bool {
    byte.is_ascii_alphanumeric() || byte == b'_' || (!first && (byte == b'-' || byte == b'.'))
}

/// The front of the names of a file's units: the file's name, with `_` for bytes that a unit's name
/// can't have.
pub(crate) fn front_of(alloc: Global, path: &str) -> Result<String, AllocError> {
    if path == "-" {
        return String::from_str(alloc, STANDARD_INPUT);
    }
    let mut front = String::new(alloc);
    for byte in base_of(path).bytes() {
        if front.len() == MOST {
            break;
        }
        let kept = is_kept(byte, front.is_empty());
        front.push(if kept { char::from(byte) } else { '_' })?;
    }
    Ok(front)
}
