//! Large files, made of a front, a repeated piece and a back. Their rows have the number of lines
//! of each kind.

use crate::files::{kind_of, without_marks};
use anyhow::{Result, ensure};
use cron_tab_lines::{Line, Lines, Refusal};
use cron_test_rows::Row;

// The mark that stands for the byte 255, which is not UTF-8.
const NO_TEXT: &str = "<FF>";

// The kinds of lines.
const NAMES: [&str; 6] = [
    "blank", "comments", "settings", "zones", "entries", "refused",
];

// The index of a line's kind in `NAMES`.
fn place_of(read: &Result<Line<'_>, Refusal<'_>>) -> usize {
    match read {
        Ok(Line::Blank) => 0,
        Ok(Line::Comment) => 1,
        Ok(Line::Setting(_)) => 2,
        Ok(Line::Zone(_)) => 3,
        Ok(Line::Entry(_)) => 4,
        Err(_) => 5,
    }
}

// The file that a row describes: a front, a count, a piece that it has this many times, and a back.
fn file_of(row: &mut Row<'_>) -> Result<Vec<u8>> {
    let alloc = row.alloc();
    let front = without_marks(alloc, row.cell())?;
    let count = row.cell().parse::<usize>()?;
    let piece = without_marks(alloc, row.cell())?;
    let back = without_marks(alloc, row.cell())?;
    let pieces = piece.as_str().repeat(alloc, count)?;
    let text = format!(in alloc; "{front}{pieces}{back}")?;
    let mut file = Vec::new(alloc);
    let mut is_first = true;
    for part in text.as_str().split(NO_TEXT) {
        if !is_first {
            file.push(255)?;
        }
        is_first = false;
        file.extend_from_slice(part.as_bytes())?;
    }
    Ok(file)
}

/// Compares the counts of a large file's lines, and the length of the longest line. The lines must
/// have all bytes of the file.
pub(crate) fn ask(row: &mut Row<'_>) -> Result<()> {
    let kind = kind_of(row.cell());
    let file = file_of(row)?;
    let mut counts = [0_usize; 6];
    let (mut bytes, mut longest) = (0_usize, 0_usize);
    for line in Lines::of(kind, file.as_slice()) {
        if let Some(count) = counts.get_mut(place_of(&line.read)) {
            *count = count.saturating_add(1);
        }
        longest = longest.max(line.bytes.len());
        bytes = bytes.saturating_add(line.bytes.len());
    }
    ensure!(bytes == file.len(), "the lines are not the file");
    for (count, name) in counts.iter().zip(NAMES.iter()) {
        row.add(", ", count)?;
        row.add(" ", name)?;
    }
    row.add(", ", &longest)?;
    row.add(" ", &"bytes")?;
    row.check("lines")
}
