//! The rows of a report on entries. As text: `- 12`, a tab and the line; `~ 12 14`, a tab and a
//! civil second.
ghost use Rattle.std.specs.Prelude.{◌≡◌, ◌++◌, IfOk, OnOk, string_bytes};
ghost use Rattle.jiff.specs.Names.{iso_datetime_text};
ghost use Rattle.cron_moments.specs.Civil.{civil};
ghost use Rattle.cron_tab_comparing.specs.Entries.{view};
ghost use Rattle.cron_tab_comparing.specs.Rows.{change_name, difference_json, difference_row, difference_text, entry_json, entry_row, entry_text, sign};

use crate::entries::Known;
use cron_moments::civil::civil_of;
use cron_replies::form::Form;
use cron_tab_rows::cells::push_cell;
use cron_tab_rows::members::{write_bytes, write_number, write_string};
use cron_tab_rows::object;
use itoa::Buffer;
use std::alloc::{AllocError, Global};

/// What became of an entry that no entry of the other crontab corresponds to.
#[derive(Clone, Copy, Debug, PartialEq, Eq)]
pub(crate) enum Change {
    /// Only the first crontab has it.
    Gone,
    /// Only the second crontab has it.
    New,
}

impl Change {
    fn sign(self) -> u8
        ensures { result ≡ sign self }
    {
        match self {
            Change::Gone => b'-',
            Change::New => b'+',
        }
    }

    fn name(self) -> &'static str
        ensures { result.now ≡ change_name self }
    {
        match self {
            Change::Gone => "gone",
            Change::New => "new",
        }
    }
}

// Appends the row of an entry that is gone or new as text.
fn push_entry_text(
    report: &mut Vec<u8>,
    change: Change,
    entry: &Known<'_>,
) -> Result<(), AllocError>
    ensures { OnOk result (report.new.items
        ≡ report.old.items ++ entry_text change (view entry.now)) }
{
    report.push(change.sign())?;
    report.push(b' ')?;
    push_cell(report, Buffer::new().format(entry.line).as_bytes(), b'\t')?;
    push_cell(report, entry.text, b'\n')
}

// The row of an entry that is gone or new as an object of JSON.
fn entry_json(alloc: Global, change: Change, entry: &Known<'_>) -> Result<Vec<u8>, AllocError>
    ensures { IfOk result (λ row. row.items ≡ entry_json change (view entry.now)) }
{
    let mut object = object::begin(Vec::new(alloc))?;
    write_string(&mut object, "change", change.name())?;
    write_number(&mut object, "line", entry.line as u128)?;
    write_bytes(alloc, &mut object, "text", "bytes", entry.text)?;
    object::end(object)
}

/// Appends the row of an entry that is gone or new.
pub(crate) fn push_entry(
    alloc: Global,
    report: &mut Vec<u8>,
    form: Form,
    change: Change,
    entry: &Known<'_>,
) -> Result<(), AllocError>
    ensures { OnOk result (report.new.items
        ≡ report.old.items ++ entry_row form change (view entry.now)) }
{
    match form {
        Form::Text => push_entry_text(report, change, entry),
        Form::Json => report.extend_from_slice(entry_json(alloc, change, entry)?.as_slice()),
    }
}

// The row of two corresponding entries as text.
fn difference_text(
    alloc: Global,
    one: &Known<'_>,
    other: &Known<'_>,
    second: u32,
) -> Result<Vec<u8>, AllocError>
    ensures { IfOk result (λ row. row.items
        ≡ difference_text (view one.now) (view other.now) second) }
{
    let (line, below) = (one.line, other.line);
    let date_time = civil_of(second);
    let row = format!(in alloc; "~ {line} {below}\t{date_time}\n")?;
    Ok(row.into_bytes())
}

// A civil second as a text, as `2028-02-29T00:00:00`.
fn second_string(alloc: Global, second: u32) -> Result<String, AllocError>
    ensures { IfOk result (λ text. string_bytes text ≡ iso_datetime_text (civil second)) }
{
    let date_time = civil_of(second);
    format!(in alloc; "{date_time}")
}

// The row of two corresponding entries as an object of JSON.
fn difference_json(
    alloc: Global,
    one: &Known<'_>,
    other: &Known<'_>,
    second: u32,
) -> Result<Vec<u8>, AllocError>
    ensures { IfOk result (λ row. row.items
        ≡ difference_json (view one.now) (view other.now) second) }
{
    let at = second_string(alloc, second)?;
    let mut object = object::begin(Vec::new(alloc))?;
    write_string(&mut object, "change", "other")?;
    write_number(&mut object, "line", one.line as u128)?;
    write_number(&mut object, "other_line", other.line as u128)?;
    write_string(&mut object, "at", at.as_str())?;
    object::end(object)
}

/// Appends the row of two corresponding entries. Only one of them matches the civil second
/// `second`, which counts from 1970-01-01 00:00:00.
pub(crate) fn push_difference(
    alloc: Global,
    report: &mut Vec<u8>,
    form: Form,
    one: &Known<'_>,
    other: &Known<'_>,
    second: u32,
) -> Result<(), AllocError>
    ensures { OnOk result (report.new.items
        ≡ report.old.items ++ difference_row form (view one.now) (view other.now) second) }
{
    let row = match form {
        Form::Text => difference_text(alloc, one, other, second)?,
        Form::Json => difference_json(alloc, one, other, second)?,
    };
    report.extend_from_slice(row.as_slice())
}
