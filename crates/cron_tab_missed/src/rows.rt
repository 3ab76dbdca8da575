//! The row of an entry: how many fires it missed, the first and the last of them, and the entry.
ghost use Rattle.std.specs.Prelude.{◌≡◌, ◌++◌, IfOk, OnOk};
ghost use Rattle.cron_tab_rows.specs.Writing.{Writes};
ghost use Rattle.cron_tab_missed.specs.Entries.{ends_in, view};
ghost use Rattle.cron_tab_missed.specs.Rows.{ends_cells, ends_members, json_row, row, text_row};

use crate::entries::TabMissed;
use cron_agenda::EntryFire;
use cron_replies::form::Form;
use cron_tab_agenda::fire_text;
use cron_tab_rows::cells::{push_cell, push_place, push_task};
use cron_tab_rows::members::{write_fire, write_number, write_place, write_task};
use cron_tab_rows::object;
use itoa::Buffer;
use json::Writer;
use std::alloc::{AllocError, Global};

// Appends the first fire and the last, or hyphens if there are none.
fn push_ends(report: &mut Vec<u8>, ends: &[EntryFire]) -> Result<(), AllocError>
    ensures { OnOk result (report.new.items ≡ report.old.items ++ ends_cells (ends_in ends.now)) }
{
    let [first, last] = ends else {
        report.extend_from_slice(b"-\t-\t")?;
        return Ok(());
    };
    push_cell(report, fire_text(first).as_slice(), b'\t')?;
    push_cell(report, fire_text(last).as_slice(), b'\t')
}

// Appends the row of an entry as cells with tabs between them.
fn push_text_row(report: &mut Vec<u8>, entry: &TabMissed<'_>) -> Result<(), AllocError>
    ensures { OnOk result (report.new.items ≡ report.old.items ++ text_row (view entry.now)) }
{
    push_cell(report, Buffer::new().format(entry.count).as_bytes(), b'\t')?;
    push_ends(report, entry.ends.as_slice())?;
    push_place(report, entry.source.file, entry.line)?;
    push_task(report, &entry.source)
}

// Writes the members with the first fire and the last, if there are any.
fn write_ends(alloc: Global, object: &mut Writer, ends: &[EntryFire]) -> Result<(), AllocError>
    ensures { OnOk result (Writes (ends_members (ends_in ends.now)) object.old object.new) }
{
    let [first, last] = ends else {
        return Ok(());
    };
    write_fire(alloc, object, "first", "first_epoch", first)?;
    write_fire(alloc, object, "last", "last_epoch", last)
}

// The row of an entry as an object of JSON.
fn json_row(alloc: Global, entry: &TabMissed<'_>) -> Result<Vec<u8>, AllocError>
    ensures { IfOk result (λ row. row.items ≡ json_row (view entry.now)) }
{
    let mut object = object::begin(Vec::new(alloc))?;
    write_number(&mut object, "missed", entry.count as u128)?;
    write_ends(alloc, &mut object, entry.ends.as_slice())?;
    write_place(&mut object, "line", "file", entry.source.file, entry.line)?;
    write_task(alloc, &mut object, &entry.source)?;
    object::end(object)
}

/// Appends the row of an entry.
pub(crate) fn push_row(
    alloc: Global,
    report: &mut Vec<u8>,
    form: Form,
    entry: &TabMissed<'_>,
) -> Result<(), AllocError>
    ensures { OnOk result (report.new.items ≡ report.old.items ++ row form (view entry.now)) }
{
    match form {
        Form::Text => push_text_row(report, entry),
        Form::Json => report.extend_from_slice(json_row(alloc, entry)?.as_slice()),
    }
}
