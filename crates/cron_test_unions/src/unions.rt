//! Rows about unions, which are several schedules as one.

use anyhow::{Result, ensure};
use cron_comparing::common::first_common;
use cron_comparing::difference::first_difference;
use cron_counting::counts::{fires_by_day, fires_by_hour};
use cron_fires::{Dues, Union};
use cron_moments::civil::{DAYS, SECONDS_PER_DAY, civil_number, civil_of};
use cron_oncalendar::lines::{calendar_lines, is_word};
use cron_test_rows::{Row, sets_of, zone_file, zone_named};
use cron_units::fields::ScheduleFields;
use cron_words::sentence::sentence;
use jiff::Timestamp;
use jiff::civil::DateTime;
use std::alloc::{AllocError, Global};

/// How fires are counted.
#[derive(Clone, Copy)]
pub(crate) enum Counts {
    ByDay,
    ByHour,
}

/// Which text of an expression is compared.
#[derive(Clone, Copy)]
pub(crate) enum Asked {
    CalendarLines,
    Sentence,
}

// The schedules of a union of expressions. `none` is the union of no schedules.
fn union_of(alloc: Global, expressions: &str) -> Result<Vec<ScheduleFields>> {
    if expressions == "none" {
        return Ok(Vec::new(alloc));
    }
    sets_of(alloc, expressions, " ; ")
}

// Adds a civil second to the row's answer, or `none`.
fn add(row: &mut Row<'_>, second: Option<u32>) -> Result<(), AllocError> {
    match second {
        Some(number) => row.add("\t", &civil_of(number)),
        None => row.add("\t", &"none"),
    }
}

/// Compares the first civil second that two unions share, and the first where they differ.
pub(crate) fn ask_firsts(row: &mut Row<'_>) -> Result<()> {
    let union = union_of(row.alloc(), row.cell())?;
    let other = union_of(row.alloc(), row.cell())?;
    add(row, first_common(union.as_slice(), other.as_slice()))?;
    add(row, first_difference(union.as_slice(), other.as_slice()))?;
    row.check("both answers")
}

/// Compares the numbers of fires on as many days, or in as many hours, as the row has numbers.
pub(crate) fn ask_counts(row: &mut Row<'_>, counts: Counts) -> Result<()> {
    let name = row.cell();
    let file = zone_file(row, name)?;
    let zone = zone_named(name, &file)?;
    let first = civil_number(row.cell().parse::<DateTime>()?) / i64::from(SECONDS_PER_DAY);
    let union = union_of(row.alloc(), row.cell())?;
    let numbers = u32::try_from(row.wanted().split(' ').count())?;
    let first = u32::try_from(first)?;
    let days = match counts {
        Counts::ByDay => numbers,
        Counts::ByHour => numbers / 24,
    };
    ensure!(first < DAYS && days <= DAYS - first, "days after the range");
    let counts = match counts {
        Counts::ByDay => fires_by_day(row.alloc(), union.as_slice(), first, days, &zone)?,
        Counts::ByHour => fires_by_hour(row.alloc(), union.as_slice(), first, days, &zone)?,
    };
    for count in counts {
        row.add(" ", &count)?;
    }
    row.check("the counts")
}

// The lines of OnCalendar with ` ; ` between two, or `none` if there are none. Each line has the
// name `zone`, if it is given.
fn lines_of(alloc: Global, schedules: &[ScheduleFields], zone: Option<&str>) -> Result<String> {
    ensure!(zone.is_none_or(is_word), "the zone's name is no word");
    let Some(lines) = calendar_lines(alloc, schedules, zone)? else {
        return Ok(String::from_str(alloc, "none")?);
    };
    let mut text = String::new(alloc);
    for line in lines.lines() {
        if !text.is_empty() {
            text.push_str(" ; ")?;
        }
        text.push_str(line)?;
    }
    Ok(text)
}

/// Compares the lines of `OnCalendar` of a union in a zone, and as many of its due fires as the row
/// has. Fires whose civil second the zone's clock doesn't show are left out.
pub(crate) fn ask_elapses(row: &mut Row<'_>) -> Result<()> {
    let name = row.cell();
    let file = zone_file(row, name)?;
    let zone = zone_named(name, &file)?;
    let name = row.cell();
    let start = row.cell().parse::<Timestamp>()?;
    let schedules = union_of(row.alloc(), row.cell())?;
    let union = Union {
        schedules: schedules.as_slice(),
    };
    let lines = lines_of(row.alloc(), union.schedules, Some(name))?;
    let wanted = row.cell();
    row.compare("the lines", wanted, lines.as_str())?;
    let mut left = row.wanted().split(' ').count();
    for fire in Dues::after(&union, start, &zone) {
        if fire.seconds_past() == 0 {
            if left == 0 {
                break;
            }
            left -= 1;
            row.add(" ", &fire.timestamp())?;
        }
    }
    row.check("the elapses")
}

/// Compares the sentence of some schedules, or their lines of `OnCalendar`.
pub(crate) fn ask_text(
    row: &mut Row<'_>,
    asked: Asked,
    schedules: &[ScheduleFields],
) -> Result<()> {
    match asked {
        Asked::Sentence => row.add("", &sentence(row.alloc(), schedules)?)?,
        Asked::CalendarLines => row.add("", &lines_of(row.alloc(), schedules, None)?)?,
    }
    row.check("the text")
}

/// Compares the number of words of an expression's sentence with the most that it may have.
pub(crate) fn ask_length(row: &mut Row<'_>) -> Result<()> {
    let schedules = sets_of(row.alloc(), row.cell(), " ; ")?;
    let most = row.wanted().parse::<usize>()?;
    let text = sentence(row.alloc(), schedules.as_slice())?;
    let words = text.as_str().split(' ').count();
    ensure!(words <= most, "{words} words: {text}");
    Ok(())
}
