//! Texts, read as expressions of a crontab and as expressions of this library.

use crate::words::bytes_of;
use anyhow::Result;
use cron_crontab::read;
use cron_test_rows::Row;
use cron_text::{no_ordinals, read_into};

fn is_own(text: &str) -> bool {
    let mut fields = no_ordinals();
    read_into(text, &mut fields)
}

/// Replays a row, which has a text, whether it is an expression of a crontab, and whether it is one
/// of this library.
pub(crate) fn ask(row: &mut Row<'_>) -> Result<()> {
    let bytes = bytes_of(row.alloc(), row.cell())?;
    let text = str::from_utf8(bytes.as_slice())?;
    row.add(" ", &read(text).is_ok())?;
    Ok(row.add(" ", &is_own(text))?)
}

/// Fills `text` with the digits of `number` in base 3, the lowest first. `characters` are the
/// digits.
fn write_text(number: u32, characters: [u8; 3], text: &mut [u8]) {
    let mut rest = number;
    for byte in text.iter_mut() {
        *byte = characters[(rest % 3) as usize];
        rest /= 3;
    }
}

/// Replays a row, which has three counts of the texts of ten characters `*`, `1` and space: those
/// that are expressions of crontabs, of this library, and of both.
pub(crate) fn ask_short(row: &mut Row<'_>) -> Result<()> {
    let mut text = [0_u8; 10];
    let (mut crontabs, mut own, mut both) = (0_u32, 0_u32, 0_u32);
    for number in 0..59_049 {
        write_text(number, *b"*1 ", &mut text);
        let text = str::from_utf8(&text)?;
        let (is_crontabs, is_own) = (read(text).is_ok(), is_own(text));
        crontabs = crontabs.saturating_add(u32::from(is_crontabs));
        own = own.saturating_add(u32::from(is_own));
        both = both.saturating_add(u32::from(is_crontabs && is_own));
    }
    row.add("", &crontabs)?;
    row.add(" ", &own)?;
    Ok(row.add(" ", &both)?)
}
