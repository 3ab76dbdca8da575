//! The report of one line: its number, and its fault or what else is wanted of it.

ghost use Rattle.std.specs.Prelude.{◌≡◌, [], IfOk, OnOk};
ghost use Rattle.std.specs.String.{string_bytes};
ghost use Rattle.cron_checking.specs.Inner.{TellsBytes};
ghost use Rattle.cron_checking.specs.Lines.{is_passed_over};
ghost use Rattle.cron_checking.specs.Reports.{TellsFirst, TellsSets, TellsText, told};
ghost use Rattle.cron_canonical.specs.Short.{sets_text};
ghost use Rattle.jiff.specs.Words.{plain_zone};

use crate::short::push_sets;
use cron_fires::{CivilSeconds, first_fire_after};
use cron_moments::line::text_of;
use cron_text::{fault_of, is_space, no_ordinals, read_into};
use cron_units::fields::ScheduleFields;
use jiff::Timestamp;
use jiff::tz::TimeZone;
use std::alloc::AllocError;

/// What is reported of a line that means sets. A line that means nothing has its fault reported.
#[derive(Clone, Copy)]
pub enum Mode<'a> {
    /// Nothing is reported.
    Faults,
    /// The short form of the line's sets, its canonical text.
    Short,
    /// The line's first fire after an instant in a zone, or `none`.
    Next(Timestamp, TimeZone<'a>),
}

/// How lines are reported.
#[derive(Drop)]
pub struct Telling<'a> {
    /// The text in front of each line's number, such as a file's name and a colon. It may be empty.
    pub front: &'a str,
    /// What is reported of a line that means sets.
    pub mode: Mode<'a>,
}

// Returns true if the line is white space alone, or a comment. Such a line has no report.
fn is_passed_over(line: &[u8]) -> bool
    ensures { result ≡ is_passed_over line.now }
{
    for byte in line {
        if !is_space(*byte) {
            return *byte == b'#';
        }
    }
    true
}

fn tell_short(
    front: &str,
    number: u64,
    fields: &ScheduleFields,
    text: &mut String,
) -> Result<(), AllocError>
    requires { string_bytes text.old ≡ [] }
    ensures { OnOk result (string_bytes text.new ≡ told front.now number (sets_text fields.now)) }
{
    write!(text, "{front}{number}: ")?;
    push_sets(text, fields)?;
    write!(text, "\n")
}

/// Replaces `text` by a line with the first fire of `table` after `start`, or `none` if it fires no
/// more. `front` and `number` begin the line. If memory runs out, `text` may hold a part of it.
pub fn tell_first<T: CivilSeconds>(
    front: &str,
    number: u64,
    table: &T,
    start: Timestamp,
    zone: &TimeZone<'_>,
    text: &mut String,
) -> Result<(), AllocError>
    ensures { OnOk result (TellsFirst (T.has table.now) (plain_zone zone.now)
        start.nanosecond front.now number (string_bytes text.new)) }
{
    text.clear();
    match first_fire_after(table, start, zone) {
        Some(first) => writeln!(text, "{front}{number}: {first}"),
        None => writeln!(text, "{front}{number}: none"),
    }
}

// Appends what the mode reports of a line that means the sets `fields`.
fn tell_sets(
    how: &Telling<'_>,
    number: u64,
    fields: &ScheduleFields,
    text: &mut String,
) -> Result<(), AllocError>
    requires { string_bytes text.old ≡ [] }
    ensures { OnOk result (TellsSets how.now.mode how.now.front.now number fields.now
        (string_bytes text.new)) }
{
    let front = how.front;
    match &how.mode {
        Mode::Faults => Ok(()),
        Mode::Short => tell_short(front, number, fields, text),
        Mode::Next(start, zone) => tell_first(front, number, fields, *start, zone, text),
    }
}

// Appends the report of a line that is UTF-8, and returns true if the line is refused.
fn tell_text(
    how: &Telling<'_>,
    number: u64,
    line: &str,
    text: &mut String,
) -> Result<bool, AllocError>
    requires { string_bytes text.old ≡ [] }
    ensures { IfOk result (TellsText how.now number line.now (string_bytes text.new)) }
{
    if is_passed_over(line.as_bytes()) {
        return Ok(false);
    }
    let mut fields = no_ordinals();
    if read_into(line, &mut fields) {
        tell_sets(how, number, &fields, text)?;
        return Ok(false);
    }
    let front = how.front;
    let fault = fault_of(line);
    writeln!(text, "{front}{number}: {fault}")?;
    Ok(true)
}

/// Replaces `text` by the report of a line: its fault, what the mode reports, or that it isn't
/// UTF-8. It returns true if the line is refused, and `None` if it isn't UTF-8. The report is made
/// in memory first: formatting may fail, and then no part of it must be written.
pub(crate) fn tell_line(
    how: &Telling<'_>,
    number: u64,
    line: &[u8],
    text: &mut String,
) -> Result<Option<bool>, AllocError>
    ensures { IfOk result (TellsBytes how.now number line.now (string_bytes text.new)) }
{
    text.clear();
    let Ok(line) = str::from_utf8(line) else {
        let front = how.front;
        writeln!(text, "{front}{number}: not UTF-8")?;
        return Ok(None);
    };
    Ok(Some(tell_text(how, number, line, text)?))
}
