//! The entries of crontabs in words: a row for each, with its next fire.

ghost use Rattle.std.specs.Prelude.{◌≡◌, ◌++◌, IfOk, OnOk, Some};
ghost use Rattle.std.specs.Option.{option_map};
ghost use Rattle.std.specs.String.{string_bytes};
ghost use Rattle.jiff.specs.Words.{plain_zone};
ghost use Rattle.cron_crontab.specs.Views.{expression_view};
ghost use Rattle.cron_tab_lines.specs.Files.{file_lines};
ghost use Rattle.cron_tab_lines.specs.Views.{bytes_view, file_line_view};
ghost use Rattle.cron_tab_answers.specs.Explained.{fire_cell, given_of, json_row, line_row, next_members, next_of, row_of, rows_of, sentence_of, text_row, zone_at};
ghost use Rattle.cron_tab_rows.specs.Writing.{Writes};

use cron_agenda::EntryFire;
use cron_crontab::Expression;
use cron_fires::{ClockChanges, Union, first_due_after, first_fire_after};
use cron_replies::form::Form;
use cron_tab_agenda::{Clock, TabFile, changes_of};
use cron_tab_lines::{FileLine, Line, Lines, NamedZone, zone_below};
use cron_tab_rows::cells::{push_cell, push_place};
use cron_tab_rows::members::{write_fire, write_place, write_string};
use cron_tab_rows::object;
use cron_words::sentence::sentence;
use jiff::Timestamp;
use jiff::tz::TimeZone;
use json::Writer;
use std::alloc::{AllocError, Global};

/// How entries are explained.
#[derive(Clone, Copy)]
pub struct Explaining<'a> {
    pub form: Form,
    pub clock: Clock,
    /// The next fire of an entry comes after this instant.
    pub start: Timestamp,
    /// The zones that `CRON_TZ` may name.
    pub names: &'a [NamedZone<'a>],
    /// The zones by number.
    pub zones: &'a [TimeZone<'a>],
}

/// What is told of an entry.
#[derive(Clone, Copy)]
struct Told<'a> {
    /// The name of the entry's file, if there are several files.
    file: Option<&'a str>,
    /// The number of the entry's line.
    line: usize,
    /// The next fire.
    fire: Option<EntryFire>,
    sentence: &'a str,
}

// The first fire of an entry after the instant `start`. `None` if there is none; `@reboot` has
// none.
fn next_of(
    expression: &Expression,
    changes: ClockChanges,
    start: Timestamp,
    zone: &TimeZone<'_>,
) -> Option<EntryFire>
    ensures { result ≡ next_of (plain_zone zone.now) changes start.nanosecond
        (expression_view expression.now) }
{
    let Expression::Fires(schedules) = expression else {
        return None;
    };
    let table = Union {
        schedules: schedules.as_slice(),
    };
    match changes {
        ClockChanges::AsShown => match first_fire_after(&table, start, zone) {
            Some(moment) => Some(EntryFire::AsShown(moment)),
            None => None,
        },
        ClockChanges::Once => match first_due_after(&table, start, zone) {
            Some(due) => Some(EntryFire::Once(due)),
            None => None,
        },
    }
}

fn sentence_of(alloc: Global, expression: &Expression) -> Result<String, AllocError>
    ensures { IfOk result
        (λ text. string_bytes text ≡ sentence_of (expression_view expression.now)) }
{
    match expression {
        Expression::Fires(schedules) => sentence(alloc, schedules.as_slice()),
        Expression::Reboot => format!(in alloc; "When the machine starts"),
    }
}

// The printed text of a fire, or `none` if there is none.
fn fire_cell(alloc: Global, fire: &Option<EntryFire>) -> Result<String, AllocError>
    ensures { IfOk result (λ text. string_bytes text ≡ fire_cell fire.now) }
{
    match fire {
        Some(fire) => format!(in alloc; "{fire}"),
        None => format!(in alloc; "none"),
    }
}

// The row of an entry as cells with tabs between them.
fn text_row(alloc: Global, told: &Told<'_>) -> Result<Vec<u8>, AllocError>
    ensures { IfOk result (λ row. row.items
        ≡ text_row (bytes_view told.now.file) told.now.line told.now.fire told.now.sentence.now) }
{
    let mut row = fire_cell(alloc, &told.fire)?.into_bytes();
    row.push(b'\t')?;
    push_place(&mut row, told.file, told.line)?;
    push_cell(&mut row, told.sentence.as_bytes(), b'\n')?;
    Ok(row)
}

// Writes the members with the fire and its instant, if there is one.
fn write_next(
    alloc: Global,
    object: &mut Writer,
    fire: &Option<EntryFire>,
) -> Result<(), AllocError>
    ensures { OnOk result (Writes (next_members fire.now) object.old object.new) }
{
    match fire {
        Some(fire) => write_fire(alloc, object, "fire", "epoch", fire),
        None => Ok(()),
    }
}

// The row of an entry as an object of JSON.
fn json_row(alloc: Global, told: &Told<'_>) -> Result<Vec<u8>, AllocError>
    ensures { IfOk result (λ row. row.items
        ≡ json_row (bytes_view told.now.file) told.now.line told.now.fire told.now.sentence.now) }
{
    let mut object = object::begin(Vec::new(alloc))?;
    write_next(alloc, &mut object, &told.fire)?;
    write_place(&mut object, "line", "file", told.file, told.line)?;
    write_string(&mut object, "sentence", told.sentence)?;
    object::end(object)
}

fn row_of(alloc: Global, form: Form, told: &Told<'_>) -> Result<Vec<u8>, AllocError>
    ensures { IfOk result (λ row. row.items ≡ row_of form
        (bytes_view told.now.file) told.now.line told.now.fire told.now.sentence.now) }
{
    match form {
        Form::Text => text_row(alloc, told),
        Form::Json => json_row(alloc, told),
    }
}

// The zone with this number. `None` if there is none, or no number.
fn zone_at<'z>(zones: &'z [TimeZone<'z>], here: Option<usize>) -> Option<&'z TimeZone<'z>>
    ensures { option_map (λ z. z.now) result ≡ zone_at zones.now here }
{
    match here {
        Some(number) => zones.get(number),
        None => None,
    }
}

// Appends the row of a line, in the zone with number `here`. Nothing is appended if the line is no
// entry, or if there is no such zone.
fn push_line(
    alloc: Global,
    rows: &mut Vec<u8>,
    explaining: &Explaining<'_>,
    file: Option<&str>,
    here: Option<usize>,
    line: &FileLine<'_>,
) -> Result<(), AllocError>
    ensures { OnOk result (rows.new.items ≡ rows.old.items
        ++ line_row explaining.now.form (given_of explaining.now) (bytes_view file.entry) here
        (file_line_view line.now)) }
{
    let Some(zone) = zone_at(explaining.zones, here) else {
        return Ok(());
    };
    let Ok(Line::Entry(entry)) = &line.read else {
        return Ok(());
    };
    let changes = changes_of(explaining.clock, line.bytes);
    let sentence = sentence_of(alloc, &entry.expression)?;
    let told = Told {
        file,
        line: line.number,
        fire: next_of(&entry.expression, changes, explaining.start, zone),
        sentence: sentence.as_str(),
    };
    let row = row_of(alloc, explaining.form, &told)?;
    rows.extend_from_slice(row.as_slice())
}

/// Appends a row for each entry of a crontab: its next fire, its line and its sentence. Entries
/// fire in the first zone. After a line that sets `CRON_TZ`, they fire in the zone that it names. If
/// that is none of the names, the entries after the line are left out. Refused lines are skipped.
pub fn explain_file(
    alloc: Global,
    rows: &mut Vec<u8>,
    explaining: &Explaining<'_>,
    file: &TabFile<'_>,
) -> Result<(), AllocError>
    ensures { OnOk result (rows.new.items ≡ rows.old.items
        ++ rows_of explaining.now.form (given_of explaining.now) (bytes_view file.now.name) (Some 0)
        (file_lines file.now.kind file.now.bytes.now)) }
{
    let mut here = Some(0);
    for line in Lines::of(file.kind, file.bytes) {
        push_line(alloc, rows, explaining, file.name, here, &line)?;
        here = zone_below(explaining.names, here, &line);
    }
    Ok(())
}
