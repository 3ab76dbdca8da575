//! The row of a fire of a crontab's entry: cells with tabs between them, or an object of JSON.

ghost use Rattle.std.specs.Prelude.{◌≡◌, ◌++◌, [], IfErr, IfOk, OnOk};
ghost use Rattle.cron_controls.specs.Controls.{shown_by};
ghost use Rattle.cron_looks.specs.Times.{IsTimeError};
ghost use Rattle.cron_tab_answers.specs.TabRows.{IsRow, IsTextRow, entry_cells, json_row, moment_at};

use cron_agenda::EntryFire;
use cron_controls::{Controls, shown_as};
use cron_looks::{Times, clock_at, push_time};
use cron_moments::moment::Moment;
use cron_replies::form::Form;
use cron_tab_agenda::{TabFire, fire_text};
use cron_tab_rows::cells::{push_cell, push_place, push_task};
use cron_tab_rows::members::{write_fire, write_place, write_task};
use cron_tab_rows::object;
use cron_tab_rows::source::Source;
use jiff_core::Error;
use std::alloc::{AllocError, Global};

// What the clock shows at a fire's instant.
fn moment_at(fire: &EntryFire) -> Moment
    ensures { result ≡ moment_at fire.now }
{
    match fire {
        EntryFire::AsShown(moment) => *moment,
        EntryFire::Once(due) => clock_at(due),
    }
}

// Appends where the entry of a fire stands, and what it runs.
fn push_entry(row: &mut Vec<u8>, source: &Source<'_>, line: usize) -> Result<(), AllocError>
    ensures { OnOk result (row.new.items ≡ row.old.items ++ entry_cells source.now line) }
{
    push_place(row, source.file, line)?;
    push_task(row, source)
}

// Appends the same, with control characters as they are wanted.
fn push_shown_entry(
    alloc: Global,
    row: &mut Vec<u8>,
    controls: Controls,
    source: &Source<'_>,
    line: usize,
) -> Result<(), AllocError>
    ensures { OnOk result (row.new.items
        ≡ row.old.items ++ shown_by controls (entry_cells source.now line)) }
{
    if controls == Controls::Raw {
        return push_entry(row, source, line);
    }
    let mut cells = Vec::new(alloc);
    push_entry(&mut cells, source, line)?;
    let cells = shown_as(alloc, controls, cells)?;
    row.extend_from_slice(cells.as_slice())
}

// Makes the row of a fire as cells with tabs between them, in the empty vector `row`.
fn make_text_row(
    alloc: Global,
    style: &Style<'_>,
    source: &Source<'_>,
    fire: &TabFire,
    mut row: Vec<u8>,
) -> Result<Vec<u8>, Error>
    requires { row.items ≡ [] }
    ensures ok { IfOk result (λ row. IsTextRow style.now source.now fire.now row.items) }
    ensures err { IfErr result (IsTimeError style.now.times (moment_at fire.now.fire)) }
{
    let (text, moment) = (fire_text(&fire.fire), moment_at(&fire.fire));
    push_time(alloc, &mut row, &style.times, text.as_slice(), &moment)?;
    row.push(b'\t')?;
    push_shown_entry(alloc, &mut row, style.controls, source, fire.line)?;
    Ok(row)
}

// Makes the row of a fire as an object of JSON, in the empty vector `row`.
fn make_json_row(
    alloc: Global,
    source: &Source<'_>,
    fire: &TabFire,
    row: Vec<u8>,
) -> Result<Vec<u8>, AllocError>
    requires { row.items ≡ [] }
    ensures { IfOk result (λ row. row.items ≡ json_row source.now fire.now) }
{
    let mut object = object::begin(row)?;
    write_fire(alloc, &mut object, "fire", "epoch", &fire.fire)?;
    write_place(&mut object, "line", "file", source.file, fire.line)?;
    write_task(alloc, &mut object, source)?;
    object::end(object)
}

/// How rows are written.
#[derive(Clone, Copy)]
pub struct Style<'f> {
    pub form: Form,
    /// How control characters are written.
    pub controls: Controls,
    /// How the times of fires are written in rows of text.
    pub times: Times<'f>,
}

/// Makes the row of a fire. It replaces the contents of `row`, whose memory is used again.
pub(crate) fn make_row(
    alloc: Global,
    style: &Style<'_>,
    source: &Source<'_>,
    fire: &TabFire,
    mut row: Vec<u8>,
) -> Result<Vec<u8>, Error>
    ensures ok { IfOk result (λ row. IsRow style.now source.now fire.now row.items) }
    ensures err { IfErr result (IsTimeError style.now.times (moment_at fire.now.fire)) }
{
    row.clear();
    match style.form {
        Form::Text => make_text_row(alloc, style, source, fire, row),
        Form::Json => {
            let made = make_json_row(alloc, source, fire, row)?;
            Ok(shown_as(alloc, style.controls, made)?)
        }
    }
}
