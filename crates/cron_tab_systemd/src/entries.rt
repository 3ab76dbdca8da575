//! The entries of a crontab, and what is made of each.

ghost use Rattle.std.specs.Prelude.{◌≡◌, ◌++◌, ◌∷◌, [], IfOk, OnOk, Some, true, filter, map};
ghost use Rattle.std.specs.Option.{ForSome, option_map};
ghost use Rattle.jiff.specs.Words.{plain_zone};
ghost use Rattle.cron_oncalendar.specs.Zones.{is_word};
ghost use Rattle.cron_shell.specs.Lines.{variable_view};
ghost use Rattle.cron_tab_context.specs.Inner.{Appends};
ghost use Rattle.cron_tab_context.specs.Times.{zone_at};
ghost use Rattle.cron_tab_lines.specs.Files.{file_lines};
ghost use Rattle.cron_tab_lines.specs.Views.{entry_view, file_line_view};
ghost use Rattle.cron_tab_tasks.specs.Tasks.{defaults};
ghost use Rattle.cron_tab_systemd.specs.Entries.{IsWritten, left_out, skips, written};
ghost use Rattle.cron_tab_systemd.specs.Lines.{AreMade, IsMadeIn, IsMadeOf, IsMadeOfEntry, given};

use crate::made::{Fault, LineMade, Made, Units, Unsaid};
use crate::units::units_of;
use cron_shell::Variable;
use cron_tab_agenda::{ChangedDay, list_changes};
use cron_tab_lines::{Crontab, Entry, FileLine, Line, Lines, NamedZone, zone_below};
use cron_tab_tasks::{push_defaults, push_variable};
use jiff::Timestamp;
use jiff::tz::TimeZone;
use std::alloc::{AllocError, Global};

/// The days of the longest year.
const DAYS: u32 = 366;

/// What is asked of a crontab's entries.
#[derive(Clone, Copy)]
pub struct Asked<'a> {
    /// Whether the crontab is a user's or the system's.
    pub kind: Crontab,
    /// The word of `OnCalendar` for the zone of entries without `CRON_TZ`: the one with number 0.
    /// `None` for the machine's own.
    pub zone: Option<&'a str>,
    /// The zones that `CRON_TZ` may name.
    pub names: &'a [NamedZone<'a>],
    /// Whether services are started for what was missed.
    pub persistent: bool,
    /// The instant from which a year is looked at, for times that the clock skips.
    pub start: Timestamp,
}

// Appends a note for each of the days on which a time is skipped.
fn push_skips(made: &mut Vec<LineMade>, line: usize, days: &[ChangedDay]) -> Result<(), AllocError>
    ensures { OnOk result (made.new.items ≡ made.old.items
        ++ map (skips line) (filter (λ d. d.skipped) days.now)) }
{
    for day in days {
        if day.skipped {
            made.push(LineMade {
                line,
                made: Made::Skips(day.date),
            })?;
        }
    }
    Ok(())
}

// Appends that the entry in the line with this number is left out.
fn push_left_out(made: &mut Vec<LineMade>, line: usize, why: Unsaid) -> Result<(), AllocError>
    ensures { OnOk result (made.new.items ≡ made.old.items ++ left_out line why ∷ []) }
{
    made.push(LineMade {
        line,
        made: Made::LeftOut(why),
    })?;
    Ok(())
}

// Appends the units of a line's entry.
fn push_units(made: &mut Vec<LineMade>, line: usize, units: Units) -> Result<(), AllocError>
    ensures { OnOk result (made.new.items ≡ made.old.items ++ written line units ∷ []) }
{
    made.push(LineMade {
        line,
        made: Made::Units(units),
    })?;
    Ok(())
}

// Appends the units of a line's entry, and a note for each day of a year on which the clock of its
// zone skips a fixed time of it.
fn push_written(
    alloc: Global,
    made: &mut Vec<LineMade>,
    line: &FileLine<'_>,
    units: Units,
    zone: &TimeZone<'_>,
    start: Timestamp,
) -> Result<(), AllocError>
    ensures { OnOk result (Appends
        (IsWritten units start.nanosecond (plain_zone zone.now) (file_line_view line.now))
        made.old.items made.new.items) }
{
    let mut days = Vec::new(alloc);
    list_changes(&mut days, line, zone, start, DAYS)?;
    push_units(made, line.number, units)?;
    push_skips(made, line.number, days.as_slice())
}

// Appends what is made of the entry of `line`, which fires in `zone`, where the lines above set
// `variables`.
fn push_entry(
    alloc: Global,
    made: &mut Vec<LineMade>,
    asked: &Asked<'_>,
    variables: &[Variable<'_>],
    line: &FileLine<'_>,
    entry: &Entry<'_>,
    zone: &TimeZone<'_>,
) -> Result<(), AllocError>
    requires { ForSome asked.now.zone (λ word. is_word word.now ≡ true) }
    ensures { OnOk result (Appends
        (IsMadeOfEntry (given asked.now) (plain_zone zone.now)
        (map variable_view variables.now) (file_line_view line.now) (entry_view entry.now))
        made.old.items made.new.items) }
{
    match units_of(alloc, asked.zone, asked.persistent, variables, entry) {
        Ok(units) => push_written(alloc, made, line, units, zone, asked.start),
        Err(Fault::Unsaid(why)) => push_left_out(made, line.number, why),
        Err(Fault::OutOfMemory) => Err(AllocError),
    }
}

// Appends what is made of the entry of `line` in `zones[here]`, or nothing if there is no such zone.
fn push_entry_in(
    alloc: Global,
    made: &mut Vec<LineMade>,
    asked: &Asked<'_>,
    variables: &[Variable<'_>],
    line: &FileLine<'_>,
    entry: &Entry<'_>,
    zones: &[TimeZone<'_>],
    here: Option<usize>,
) -> Result<(), AllocError>
    requires { ForSome asked.now.zone (λ word. is_word word.now ≡ true) }
    ensures { OnOk result (Appends
        (IsMadeIn (given asked.now) (zone_at (map plain_zone zones.now) here)
        (map variable_view variables.now) (file_line_view line.now) (entry_view entry.now))
        made.old.items made.new.items) }
{
    let Some(number) = here else {
        return Ok(());
    };
    match zones.get(number) {
        Some(zone) => push_entry(alloc, made, asked, variables, line, entry, zone),
        None => Ok(()),
    }
}

// Appends what is made of `line` in `zones[here]`: nothing if it is no entry, or if there is no
// such zone.
fn push_line(
    alloc: Global,
    made: &mut Vec<LineMade>,
    asked: &Asked<'_>,
    variables: &[Variable<'_>],
    line: &FileLine<'_>,
    zones: &[TimeZone<'_>],
    here: Option<usize>,
) -> Result<(), AllocError>
    requires { ForSome asked.now.zone (λ word. is_word word.now ≡ true) }
    ensures { OnOk result (Appends
        (IsMadeOf (given asked.now) (zone_at (map plain_zone zones.now) here)
        (map variable_view variables.now) (file_line_view line.now))
        made.old.items made.new.items) }
{
    match &line.read {
        Ok(Line::Entry(entry)) => {
            push_entry_in(alloc, made, asked, variables, line, entry, zones, here)
        }
        _ => Ok(()),
    }
}

/// What is made of a crontab's entries, in the order of their lines: the units of each, with notes
/// on times that systemd skips, or why it is left out. Entries fire in `zones[0]`, or in the zone
/// that the last `CRON_TZ` above names. If that isn't in `asked.names`, there is nothing of them.
pub fn list_made(
    alloc: Global,
    asked: &Asked<'_>,
    zones: &[TimeZone<'_>],
    file: &[u8],
) -> Result<Vec<LineMade>, AllocError>
    requires { ForSome asked.now.zone (λ word. is_word word.now ≡ true) }
    ensures { IfOk result (λ made. AreMade (given asked.now) (map plain_zone zones.now)
        (Some 0) defaults (file_lines asked.now.kind file.now) made.items) }
{
    let mut made = Vec::new(alloc);
    let mut variables = Vec::new(alloc);
    push_defaults(&mut variables)?;
    let mut here = Some(0);
    for line in Lines::of(asked.kind, file) {
        push_variable(&mut variables, &line)?;
        push_line(
            alloc,
            &mut made,
            asked,
            variables.as_slice(),
            &line,
            zones,
            here,
        )?;
        here = zone_below(asked.names, here, &line);
    }
    Ok(made)
}
