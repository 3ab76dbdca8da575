//! Questions about an expression without a zone. The first cell of a row is the expression.

use crate::{callers, shown, units};
use anyhow::Result;
use cron::queries::TimeFound;
use cron::time_unit::Ordinal;
use cron::{Schedule, laws};
use cron_checking::short::canonical_text;
use cron_test_rows::Row;
use jiff::civil::Time;

/// The question of a file.
#[derive(Clone, Copy)]
pub(crate) enum Scheduled {
    /// Whether a civil datetime is included.
    Includes,
    /// The set of one unit, and a question about it.
    Units,
    /// The answers of the functions of `cron_callers` about sets.
    Callers,
    /// The nearest time of day, and how many times its search asked for a neighbouring member.
    Times,
    /// The schedule as JSON, and whether it is read as an equal one.
    Json,
    /// Whether the source of the schedule is read as an equal schedule.
    ReadAgain,
    /// The canonical text, which is read back.
    Canonical,
}

/// Returns true if both schedules have equal sources and equal sets.
pub(crate) fn are_equal(one: &Schedule, other: &Schedule) -> bool {
    one == other && one.timeunitspec_eq(other)
}

fn ask_again(row: &mut Row<'_>, schedule: &Schedule) -> Result<()> {
    let again = laws::read_again(row.alloc(), schedule)?;
    laws::equal_sets(schedule, &again);
    Ok(row.add("", &are_equal(schedule, &again))?)
}

/// Compares the canonical text, and the canonical text of what it is read as. Both must be equal,
/// and the sets too.
fn ask_canonical(row: &mut Row<'_>, schedule: &Schedule) -> Result<()> {
    let text = canonical_text(row.alloc(), schedule)?;
    row.add("", &text)?;
    row.check("the canonical text")?;
    let again = Schedule::from_str(row.alloc(), text.as_str())?;
    if !again.timeunitspec_eq(schedule) {
        row.add("", &"other sets: ")?;
    }
    Ok(row.add("", &canonical_text(row.alloc(), &again)?)?)
}

fn time_found(schedule: &Schedule, which: &str, from: Time) -> TimeFound {
    let hour = from.hour() as Ordinal;
    let minute = from.minute() as Ordinal;
    let second = from.second() as Ordinal;
    if which == "first" {
        schedule.first_time(hour, minute, second)
    } else {
        schedule.last_time(hour, minute, second)
    }
}

/// Replays a row, which has `first` or `last` and a time of day: the first time from it on, or the
/// last time up to it. A reader of sets in Python counted the questions: for an hour, then a
/// minute, then a second, and for another minute or hour if one has no more members. A question
/// from below 0 isn't counted; one from past the greatest number of a unit is.
fn ask_time(row: &mut Row<'_>, schedule: &Schedule) -> Result<()> {
    let (which, from) = (row.cell(), row.cell().parse()?);
    let TimeFound { time, questions } = time_found(schedule, which, from);
    match time {
        Some((hour, minute, second)) => {
            let time = format!(in row.alloc(); "{hour:02}:{minute:02}:{second:02}")?;
            row.add("", &time)?;
        }
        None => row.add("", &"none")?,
    }
    Ok(row.add(", ", &questions)?)
}

pub(crate) fn ask(row: &mut Row<'_>, asked: Scheduled) -> Result<()> {
    let schedule = &Schedule::from_str(row.alloc(), row.cell())?;
    match asked {
        Scheduled::Includes => {
            let shown = row.cell().parse()?;
            Ok(row.add("", &schedule.includes(shown))?)
        }
        Scheduled::Units => units::ask_of_schedule(row, schedule),
        Scheduled::Callers => callers::ask_sets(row, schedule),
        Scheduled::Times => ask_time(row, schedule),
        Scheduled::Json => shown::ask_json(row, schedule),
        Scheduled::ReadAgain => ask_again(row, schedule),
        Scheduled::Canonical => ask_canonical(row, schedule),
    }
}
