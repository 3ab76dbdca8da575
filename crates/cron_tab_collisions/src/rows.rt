//! The row of two entries that collide: where they are, their first collision, and how many there
//! are.
ghost use Rattle.std.specs.Prelude.{◌≡◌, ◌++◌, IfOk, OnOk};
ghost use Rattle.cron_tab_fires.specs.Entries.{view};
ghost use Rattle.cron_tab_collisions.specs.Rows.{json_row, later, row, text_row};

use cron_agenda::EntryFire;
use cron_replies::form::Form;
use cron_tab_agenda::{fire_second, fire_text};
use cron_tab_fires::TabFires;
use cron_tab_rows::cells::{push_cell, push_place};
use cron_tab_rows::members::{write_fire, write_number, write_place};
use cron_tab_rows::object;
use itoa::Buffer;
use std::alloc::{AllocError, Global};

/// The later of two fires, or `first` if they share an instant.
pub(crate) fn later(first: EntryFire, second: EntryFire) -> EntryFire
    ensures { result ≡ later first second }
{
    if fire_second(&first) < fire_second(&second) {
        second
    } else {
        first
    }
}

// Appends the row of two entries as cells with tabs between them.
fn push_text_row(
    report: &mut Vec<u8>,
    first: &TabFires<'_>,
    second: &TabFires<'_>,
    fire: &EntryFire,
    pairs: u128,
) -> Result<(), AllocError>
    ensures { OnOk result (report.new.items
        ≡ report.old.items ++ text_row (view first.now) (view second.now) fire.now pairs) }
{
    push_place(report, first.file, first.line)?;
    push_place(report, second.file, second.line)?;
    push_cell(report, fire_text(fire).as_slice(), b'\t')?;
    push_cell(report, Buffer::new().format(pairs).as_bytes(), b'\n')
}

// The row of two entries as an object of JSON.
fn json_row(
    alloc: Global,
    first: &TabFires<'_>,
    second: &TabFires<'_>,
    fire: &EntryFire,
    pairs: u128,
) -> Result<Vec<u8>, AllocError>
    ensures { IfOk result (λ row. row.items
        ≡ json_row (view first.now) (view second.now) fire.now pairs) }
{
    let mut object = object::begin(Vec::new(alloc))?;
    write_place(&mut object, "line", "file", first.file, first.line)?;
    write_place(
        &mut object,
        "other_line",
        "other_file",
        second.file,
        second.line,
    )?;
    write_fire(alloc, &mut object, "fire", "epoch", fire)?;
    write_number(&mut object, "collisions", pairs)?;
    object::end(object)
}

/// Appends the row of two entries. `fire` is the later of the two fires that collide first, and
/// `pairs` is the number of pairs of fires that collide.
pub(crate) fn push_row(
    alloc: Global,
    report: &mut Vec<u8>,
    form: Form,
    first: &TabFires<'_>,
    second: &TabFires<'_>,
    fire: &EntryFire,
    pairs: u128,
) -> Result<(), AllocError>
    ensures { OnOk result (report.new.items
        ≡ report.old.items ++ row form (view first.now) (view second.now) fire.now pairs) }
{
    match form {
        Form::Text => push_text_row(report, first, second, fire, pairs),
        Form::Json => {
            let row = json_row(alloc, first, second, fire, pairs)?;
            report.extend_from_slice(row.as_slice())
        }
    }
}
