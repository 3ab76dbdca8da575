//! Due fires and their texts.
//!
//! The answers were counted apart, with what the clock shows at each second of a span. A civil
//! second is due at the first instant when the clock shows it or a later one. The answers of
//! `dues_between.txt` were made with the zone database of an ordinary system (2025b). Its last
//! eight rows are of New York in 2024; those with fixed times are also what Debian's cron, cronie
//! and bcron do.

use anyhow::{Context, Result};
use cron_dues::fire::nominal_second;
use cron_dues::reader::read;
use cron_fires::DueFire;
use cron_test_rows::Row;
use std::alloc::AllocError;

/// Adds the text of a due fire. If the row's answer has the parts, it adds these: the civil second
/// that matches, the due instant, and the offset and what the clock shows at that instant.
pub(crate) fn add(row: &mut Row<'_>, fire: &Option<DueFire>) -> Result<(), AllocError> {
    let Some(due) = fire else {
        return row.add(", ", &"None");
    };
    if row.wanted().split_once(" at ").is_none() {
        return row.add(", ", due);
    }
    row.add(", ", &due.nominal())?;
    row.add(" at ", &due.timestamp())?;
    row.add(" ", &due.offset().seconds())?;
    row.add(" ", &due.shown())
}

/// Replays a row, which has a text and `refused` or three numbers. These are the civil second that
/// matches, how many seconds the clock is past it, and the clock's offset in seconds. Python's
/// `datetime` made the texts. It also decided which of the texts with a changed byte are texts of
/// due fires.
pub(crate) fn ask_text(row: &mut Row<'_>) -> Result<()> {
    let (text, wanted) = row.wanted().rsplit_once(" | ").context("no answer")?;
    let Ok(fire) = read(text) else {
        return row.compare("read", wanted, "refused");
    };
    row.add("", &nominal_second(&fire))?;
    row.add(" ", &fire.seconds_past())?;
    row.add(" ", &fire.offset().seconds())?;
    row.compare("read", wanted, row.answer())?;
    let printed = format!(in row.alloc(); "{fire}")?;
    row.compare("Display", text, printed.as_str())
}
