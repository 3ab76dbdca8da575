//! Texts that are made from a row: every short text within a form, very long texts, and every text
//! that is one change away from an accepted one.

use crate::texts::{READERS, compare_readers, compare_same, read, text_of_row};
use anyhow::{Context, Result, ensure};
use cron::{Schedule, laws};
use cron_test_rows::Row;
use std::alloc::{AllocError, Global};

/// Digits, each sign of the grammar, white space, the first letters of the names and a few others
/// in both cases, and some characters that no rule of the grammar accepts. One of these is outside
/// ASCII.
const ALPHABET: &str = "01235679*?,-/@␠␉␍␊␋␀JFMASONDTWLjmsaz_.#+é";

/// The number of texts of one or two characters from `ALPHABET`.
const COUNT: usize = 1722;

/// The characters by which each character of a text is replaced.
const OTHERS: &str = "*?,-/09a@L \0\u{663}";

/// Replays a row, which has a form and the short texts that are accepted in place of its braces.
/// All other short texts must be refused. Version 0.17.0 of the Rust crate `cron` made the rows,
/// from each short text in each form. It refuses texts with an `L`; these were added by the rule
/// for the last day of a month.
pub(crate) fn ask_short(row: &mut Row<'_>) -> Result<()> {
    let alloc = row.alloc();
    let form = row.cell();
    let (front, back) = form.split_once("{}").context("the form lacks braces")?;
    let mut shorts = Vec::new(alloc);
    for first in ALPHABET.chars() {
        shorts.push(first.to_string(alloc)?)?;
        for second in ALPHABET.chars() {
            shorts.push(format!(in alloc; "{first}{second}")?)?;
        }
    }
    ensure!(shorts.len() == COUNT, "there aren't {COUNT} short texts");
    for reader in READERS {
        for short in &shorts {
            let shown = format!(in alloc; "{front}{short}{back}")?;
            let text = text_of_row(alloc, shown.as_str())?;
            if read(alloc, reader, text.as_str()).is_ok() {
                row.add(" ", short)?;
            }
        }
        row.check(reader)?;
    }
    Ok(())
}

/// Replays a row, which has a count, a front, a piece, an end and an answer. The text is the front,
/// the piece `count` times, and the end. Braces in the answer stand for all the pieces.
pub(crate) fn ask_long(row: &mut Row<'_>) -> Result<()> {
    let alloc = row.alloc();
    let count = row.cell().parse::<usize>()?;
    let front = text_of_row(alloc, row.cell())?;
    let piece = text_of_row(alloc, row.cell())?;
    let end = text_of_row(alloc, row.cell())?;
    let pieces = piece.repeat(alloc, count)?;
    let text = format!(in alloc; "{front}{pieces}{end}")?;
    let answer = row.wanted().replace(alloc, "{}", pieces.as_str())?;
    compare_readers(row, text.as_str(), answer.as_str())
}

/// The changed copies of `text` in which the character at byte `at` is dropped, doubled, exchanged
/// with the next one, or replaced by each of `OTHERS`. No copies if no character begins at `at`.
fn changes_at(alloc: Global, text: &str, at: usize) -> Result<Vec<String>, AllocError> {
    let mut texts = Vec::new(alloc);
    let Some((front, rest)) = text.split_at_checked(at) else {
        return Ok(texts);
    };
    let mut rest = rest.chars();
    let Some(character) = rest.next() else {
        return Ok(texts);
    };
    let back = rest.as_str();
    texts.push(format!(in alloc; "{front}{back}")?)?;
    texts.push(format!(in alloc; "{front}{character}{character}{back}")?)?;
    if let Some(next) = rest.next() {
        let rest = rest.as_str();
        texts.push(format!(in alloc; "{front}{next}{character}{rest}")?)?;
    }
    for other in OTHERS.chars() {
        texts.push(format!(in alloc; "{front}{other}{back}")?)?;
    }
    Ok(texts)
}

/// Replays a row, which has an accepted text and the number of changed copies. No other program
/// says what each copy means. Checked is that the readers agree, and that the source of an accepted
/// copy is read as the same sets again.
pub(crate) fn ask_changes(row: &mut Row<'_>) -> Result<()> {
    let alloc = row.alloc();
    let text = text_of_row(alloc, row.cell())?;
    let mut count = 0_usize;
    for (at, _) in text.char_indices() {
        for changed in changes_at(alloc, text.as_str(), at)? {
            count = count.saturating_add(1);
            compare_same(row, changed.as_str())?;
            if let Ok(schedule) = Schedule::from_str(alloc, changed.as_str()) {
                let again = laws::read_again(alloc, &schedule)?;
                if !again.timeunitspec_eq(&schedule) {
                    row.compare(changed.as_str(), "equal sets", "other sets")?;
                }
            }
        }
    }
    row.add("", &count)?;
    row.check("how many changes there are")
}
