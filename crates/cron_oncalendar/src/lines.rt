//! The lines of schedules and of their unions, as `Mon..Fri *-*-* 09:30:00`.

ghost use Rattle.std.specs.Prelude.{◌≡◌, ◌≤◌, [], true, false, ℕ, OnOk, IfOk, MatchOption, sum_by};
ghost use Rattle.std.specs.Option.{ForSome, option_map};
ghost use Rattle.std.specs.String.{string_bytes};
ghost use Rattle.cron_time.specs.Matches.{matches};
ghost use Rattle.cron_unions.specs.Unions.{matches_any};
ghost use Rattle.cron_oncalendar.specs.Inner.Pieces.{is_under, AreDates, AreTimes, AreLines, IsWhole, matches_by, matches_last};
ghost use Rattle.cron_oncalendar.specs.Inner.Written.{Pushes};
ghost use Rattle.cron_oncalendar.specs.Unions.{IsNever, SaysUnion, last_lines, line_count, never_fires, numbered_lines};
ghost use Rattle.cron_oncalendar.specs.Zones.{is_word, zone_text};

use crate::components::{push_component, push_weekdays};
use cron_time::search::civil_seconds::nearest_match;
use cron_units::fields::ScheduleFields;
use cron_units::time_unit::TimeUnitSpec;
use cron_units::way::Way;
use std::alloc::{AllocError, Global};

// Appends the years, the months and the days of the month: the last day if `last_day`, else the
// days by number.
fn push_date(text: &mut String, fields: &ScheduleFields, last_day: bool) -> Result<(), AllocError>
    requires whole { IsWhole fields.now }
    requires numbered { last_day ≡ false → fields.now.days_of_month.ordinals ≡ [] → ⊥ }
    ensures { OnOk result (Pushes (AreDates fields.now last_day)
        (string_bytes text.old) (string_bytes text.new)) }
{
    push_component(text, &fields.years)?;
    text.push_str("-")?;
    push_component(text, &fields.months)?;
    if last_day {
        return write!(text, "~01");
    }
    text.push_str("-")?;
    push_component(text, &fields.days_of_month)
}

fn push_time(text: &mut String, fields: &ScheduleFields) -> Result<(), AllocError>
    requires whole { IsWhole fields.now }
    ensures { OnOk result (Pushes (AreTimes fields.now)
        (string_bytes text.old) (string_bytes text.new)) }
{
    push_component(text, &fields.hours)?;
    text.push_str(":")?;
    push_component(text, &fields.minutes)?;
    text.push_str(":")?;
    push_component(text, &fields.seconds)
}

// Appends a line of the schedule, with `after` and a line feed at its end. It is for the last day
// of the month if `last_day`, else for the days by number.
fn push_line(
    text: &mut String,
    fields: &ScheduleFields,
    last_day: bool,
    after: &str,
) -> Result<(), AllocError>
    requires whole { IsWhole fields.now }
    requires numbered { last_day ≡ false → fields.now.days_of_month.ordinals ≡ [] → ⊥ }
    ensures { OnOk result (Pushes (AreLines after.now 1 (matches_by fields.now last_day))
        (string_bytes text.old) (string_bytes text.new)) }
{
    push_weekdays(text, &fields.days_of_week)?;
    push_date(text, fields, last_day)?;
    text.push_str(" ")?;
    push_time(text, fields)?;
    text.push_str(after)?;
    writeln!(text)
}

// Appends the line of the days by number, if there are any.
fn push_numbered(text: &mut String, fields: &ScheduleFields, after: &str) -> Result<(), AllocError>
    requires whole { IsWhole fields.now }
    ensures { OnOk result (Pushes
        (AreLines after.now (numbered_lines fields.now) (matches_by fields.now false))
        (string_bytes text.old) (string_bytes text.new)) }
{
    if fields.days_of_month.count() == 0 {
        return Ok(());
    }
    push_line(text, fields, false, after)
}

// Appends the line of the last day of the month, if it is marked.
fn push_last(text: &mut String, fields: &ScheduleFields, after: &str) -> Result<(), AllocError>
    requires whole { IsWhole fields.now }
    ensures { OnOk result (Pushes
        (AreLines after.now (last_lines fields.now) (matches_last fields.now))
        (string_bytes text.old) (string_bytes text.new)) }
{
    if !fields.days_of_month.last_day() {
        return Ok(());
    }
    push_line(text, fields, true, after)
}

// Whether the schedule matches no civil second of 1970 to 2100.
fn never_fires(fields: &ScheduleFields) -> bool
    ensures { result ≡ never_fires fields.now }
{
    nearest_match(fields, Way::Ahead, 0).is_none()
}

// Appends the lines of a schedule, or nothing if it never fires.
fn push_lines(text: &mut String, fields: &ScheduleFields, after: &str) -> Result<(), AllocError>
    ensures { OnOk result (Pushes (AreLines after.now (line_count fields.now) (matches fields.now))
        (string_bytes text.old) (string_bytes text.new)) }
{
    if never_fires(fields) {
        return Ok(());
    }
    push_numbered(text, fields, after)?;
    push_last(text, fields, after)
}

fn push_union(
    text: &mut String,
    schedules: &[ScheduleFields],
    after: &str,
) -> Result<(), AllocError>
    ensures { OnOk result (Pushes
        (AreLines after.now (sum_by line_count schedules.now) (matches_any schedules.now))
        (string_bytes text.old) (string_bytes text.new)) }
{
    for fields in schedules {
        push_lines(text, fields, after)?;
    }
    Ok(())
}

/// Whether a text can be one word of a line: it has neither a space nor a line feed. The name of
/// each zone is one word.
pub fn is_word(text: &str) -> bool
    ensures { result ≡ is_word text.now }
{
    text.as_bytes()
        .iter()
        .all(|byte| !(*byte == b' ' || *byte == b'\n'))
}

// The end of each line: a space and the name of the zone, or nothing if no zone is given.
fn zone_text(alloc: Global, zone: Option<&str>) -> Result<String, AllocError>
    ensures { IfOk result (λ after. string_bytes after
        ≡ zone_text (option_map (λ name. name.now) zone.entry)) }
{
    let mut after = String::new(alloc);
    if let Some(name) = zone {
        after.push_str(" ")?;
        after.push_str(name)?;
    }
    Ok(after)
}

/// The lines of systemd's `OnCalendar` for a union. From 1970 to 2100 they match exactly what the
/// union matches. A schedule has one line, or two if it has both days by number and the mark of the
/// last day. A schedule that never fires has no line. If `zone` is given, its name ends each line;
/// else a line elapses by the machine's clock. A star for the years also means those after 2100.
/// `None` if the union never fires. `AllocError` if the allocator refuses memory for the text.
pub fn calendar_lines(
    alloc: Global,
    schedules: &[ScheduleFields],
    zone: Option<&str>,
) -> Result<Option<String>, AllocError>
    requires { ForSome zone (λ name. is_word name.now ≡ true) }
    ensures { IfOk result (λ lines. MatchOption lines
        (IsNever schedules.now)
        (λ text. SaysUnion schedules.now (option_map (λ name. name.now) zone.entry)
        (string_bytes text))) }
{
    let after = zone_text(alloc, zone)?;
    let mut text = String::new(alloc);
    push_union(&mut text, schedules, after.as_str())?;
    if text.is_empty() {
        return Ok(None);
    }
    Ok(Some(text))
}
