//! What is written of the duty of people.

ghost use Rattle.std.specs.Prelude.{◌≡◌, ◌++◌, IfOk, None, OnOk, string_bytes};
ghost use Rattle.jiff.specs.Words.{plain_zone};
ghost use Rattle.cron_answers.specs.Lateness.{IsSinceText};
ghost use Rattle.cron_stretches.specs.Fires.{IsInstant};
ghost use Rattle.cron_tab_lines.specs.Views.{bytes_view};
ghost use Rattle.cron_tab_rows.specs.Writing.{Writes};
ghost use Rattle.cron_rota_answers.specs.Inner.Rows.{AddsRow};
ghost use Rattle.cron_rota_answers.specs.People.{texts};
ghost use Rattle.cron_rota_answers.specs.Rows.{IsRow, IsTime, IsWhoRow, json_row, name_of, person_member, row, text_row, who_json, who_text};

use cron_moments::parts::moment_at;
use cron_replies::form::Form;
use cron_stretches::fires::instant_at;
use cron_stretches::stretch::Stretch;
use cron_tab_rows::cells::push_cell;
use cron_tab_rows::members::write_string;
use cron_tab_rows::object;
use jiff::tz::{Offset, TimeZone};
use json::Writer;
use std::alloc::{AllocError, Global};

// What a clock at `offset` shows at the instant `second`, in seconds since 1970. Outside of 1970 to
// 2100 it is `@` and the seconds.
fn shown_at(alloc: Global, second: i64, offset: Offset) -> Result<String, AllocError>
    ensures { IfOk result (λ text. IsSinceText second offset (string_bytes text)) }
{
    match moment_at(second, offset) {
        Some(moment) => format!(in alloc; "{moment}"),
        None => format!(in alloc; "@{second}"),
    }
}

// The text of an instant, in seconds since 1970: what the zone's clock shows then, with its offset.
// Outside of 1970 to 2100 it is `@` and the seconds.
fn time_of(alloc: Global, second: i64, zone: &TimeZone<'_>) -> Result<String, AllocError>
    requires { IsInstant second }
    ensures { IfOk result (λ text. IsTime (plain_zone zone.now) second (string_bytes text)) }
{
    let offset = zone.to_offset(instant_at(second));
    shown_at(alloc, second, offset)
}

/// The name of the person with a number. It is empty if there is no such person.
pub(crate) fn name_of<'a>(names: &[&'a str], person: u32) -> &'a str
    ensures { result.now ≡ name_of (texts names.now) person }
{
    let place = person as usize;
    if place < names.len() {
        let name = names[place];
        return name;
    }
    ""
}

fn text_row(alloc: Global, from: &str, until: &str, name: &str) -> Result<Vec<u8>, AllocError>
    ensures { IfOk result (λ row. row.items ≡ text_row from.now until.now name.now) }
{
    let mut row = Vec::new(alloc);
    push_cell(&mut row, from.as_bytes(), b'\t')?;
    push_cell(&mut row, until.as_bytes(), b'\t')?;
    push_cell(&mut row, name.as_bytes(), b'\n')?;
    Ok(row)
}

fn json_row(alloc: Global, from: &str, until: &str, name: &str) -> Result<Vec<u8>, AllocError>
    ensures { IfOk result (λ row. row.items ≡ json_row from.now until.now name.now) }
{
    let mut object = object::begin(Vec::new(alloc))?;
    write_string(&mut object, "from", from)?;
    write_string(&mut object, "until", until)?;
    write_string(&mut object, "person", name)?;
    object::end(object)
}

fn row_of(
    alloc: Global,
    form: Form,
    from: &str,
    until: &str,
    name: &str,
) -> Result<Vec<u8>, AllocError>
    ensures { IfOk result (λ made. made.items ≡ row form from.now until.now name.now) }
{
    match form {
        Form::Text => text_row(alloc, from, until, name),
        Form::Json => json_row(alloc, from, until, name),
    }
}

// The row of a shift.
fn shift_row(
    alloc: Global,
    form: Form,
    names: &[&str],
    shift: &Stretch<u32>,
    zone: &TimeZone<'_>,
) -> Result<Vec<u8>, AllocError>
    requires first { IsInstant shift.now.first }
    requires end { IsInstant shift.now.end }
    ensures { IfOk result (λ made. IsRow form (plain_zone zone.now) (texts names.now) shift.now
        made.items) }
{
    let from = time_of(alloc, shift.first, zone)?;
    let until = time_of(alloc, shift.end, zone)?;
    let name = name_of(names, shift.value);
    row_of(alloc, form, from.as_str(), until.as_str(), name)
}

fn push_bytes(report: &mut Vec<u8>, bytes: &[u8]) -> Result<(), AllocError>
    ensures { OnOk result (report.new.items ≡ report.old.items ++ bytes.now) }
{
    report.extend_from_slice(bytes)
}

/// Appends the row of a shift.
pub(crate) fn push_shift(
    alloc: Global,
    report: &mut Vec<u8>,
    form: Form,
    names: &[&str],
    shift: &Stretch<u32>,
    zone: &TimeZone<'_>,
) -> Result<(), AllocError>
    requires first { IsInstant shift.now.first }
    requires end { IsInstant shift.now.end }
    ensures { OnOk result (AddsRow form (plain_zone zone.now) (texts names.now) shift.now
        report.old.items report.new.items) }
{
    let row = shift_row(alloc, form, names, shift, zone)?;
    push_bytes(report, row.as_slice())
}

fn push_who(row: &mut Vec<u8>, who: Option<&str>) -> Result<(), AllocError>
    ensures { OnOk result (row.new.items ≡ row.old.items ++ who_text (bytes_view who.entry)) }
{
    match who {
        Some(name) => push_cell(row, name.as_bytes(), b'\n'),
        None => push_bytes(row, b"nobody\n"),
    }
}

fn who_text(alloc: Global, who: Option<&str>) -> Result<Vec<u8>, AllocError>
    ensures { IfOk result (λ row. row.items ≡ who_text (bytes_view who.entry)) }
{
    let mut row = Vec::new(alloc);
    push_who(&mut row, who)?;
    Ok(row)
}

fn write_nobody(object: &mut Writer) -> Result<(), AllocError>
    ensures { OnOk result (Writes (person_member None) object.old object.new) }
{
    object.key("person")?;
    object.null()
}

// Writes the member with the name of who is on duty, or with `null`.
fn write_person(object: &mut Writer, who: Option<&str>) -> Result<(), AllocError>
    ensures { OnOk result (Writes (person_member (bytes_view who.entry)) object.old object.new) }
{
    match who {
        Some(name) => write_string(object, "person", name),
        None => write_nobody(object),
    }
}

fn who_json(alloc: Global, at: &str, who: Option<&str>) -> Result<Vec<u8>, AllocError>
    ensures { IfOk result (λ row. row.items ≡ who_json at.now (bytes_view who.entry)) }
{
    let mut object = object::begin(Vec::new(alloc))?;
    write_string(&mut object, "at", at)?;
    write_person(&mut object, who)?;
    object::end(object)
}

/// The row that says who is on duty at an instant, in seconds since 1970.
pub(crate) fn who_row(
    alloc: Global,
    form: Form,
    second: i64,
    who: Option<&str>,
    zone: &TimeZone<'_>,
) -> Result<Vec<u8>, AllocError>
    requires { IsInstant second }
    ensures { IfOk result (λ row. IsWhoRow form (plain_zone zone.now) second
        (bytes_view who.entry) row.items) }
{
    match form {
        Form::Text => who_text(alloc, who),
        Form::Json => {
            let at = time_of(alloc, second, zone)?;
            who_json(alloc, at.as_str(), who)
        }
    }
}
