//! Three kinds of rows: the fires of the entries of crontabs, over two days around a transition and
//! over two years; what real crons do when a clock changes; and the days when a transition skips or
//! doubles a fixed time. The rows were counted apart, by scans of minutes.

use anyhow::{Context, Result, bail};
use cron_agenda::Agenda;
use cron_fires::ClockChanges;
use cron_tab_agenda::{Clock, TabFire, add_lines, list_changes, list_fires};
use cron_tab_lines::{Crontab, Lines};
use cron_test_rows::Row;
use jiff::Timestamp;
use jiff::tz::TimeZone;
use std::alloc::{AllocError, Global};
use std::fs;

// The number of fires that are listed in one call. A row has more, so a listing goes on where
// another ended.
const PAGE: usize = 7;

// The greatest number of fires that are written one by one. Of more fires only the number is
// written.
const FEW: usize = 4;

// How many days are searched for changed ones.
const TWO_YEARS: u32 = 731;

// The clock rule with this name. `own` is the own rule of each entry.
fn clock_named(name: &str) -> Result<Clock> {
    match name {
        "own" => Ok(Clock::Own),
        "shown" => Ok(Clock::Chosen(ClockChanges::AsShown)),
        "once" => Ok(Clock::Chosen(ClockChanges::Once)),
        _ => bail!("{name:?} is no clock"),
    }
}

/// The rule of a zone, and two instants. Entries fire after the first and up to the second.
type Span<'r> = (&'r str, &'r str, &'r str);

// The fires of a crontab's entries.
fn fires_of(
    alloc: Global,
    clock: Clock,
    (rule, start, until): Span<'_>,
    tab: &str,
) -> Result<Vec<TabFire>> {
    let zones = [TimeZone::posix(rule)?];
    let start = start.parse::<Timestamp>()?;
    let until = until.parse::<Timestamp>()?;
    let mut agenda = Agenda::new(alloc);
    let lines = Lines::of(Crontab::User, tab.as_bytes());
    add_lines(&mut agenda, lines, &[], clock, start, &zones, 0)?;
    let mut fires = Vec::new(alloc);
    for _page in 0..u32::MAX {
        let before = fires.len();
        list_fires(&mut fires, &mut agenda, until, PAGE, &zones)?;
        if fires.len() == before {
            break;
        }
    }
    Ok(fires)
}

/// Compares the fires of a line: their instants, or their number if there are more than `FEW`.
pub(crate) fn ask_fires(row: &mut Row<'_>) -> Result<()> {
    let span = (row.cell(), row.cell(), row.cell());
    let fires = fires_of(row.alloc(), Clock::Own, span, row.cell())?;
    if fires.len() > FEW {
        row.add("", &fires.len())?;
        row.add(" ", &"fires")?;
    } else {
        for fire in &fires {
            row.add(" ", &fire.fire.timestamp())?;
        }
    }
    row.compare("the line", row.wanted(), row.answer())
}

/// Compares the changed days of a line, in the zone of a rule and from an instant on.
pub(crate) fn ask_changes(row: &mut Row<'_>) -> Result<()> {
    let zone = TimeZone::posix(row.cell())?;
    let start = row.cell().parse::<Timestamp>()?;
    let mut days = Vec::new(row.alloc());
    for line in Lines::of(Crontab::User, row.cell().as_bytes()) {
        list_changes(&mut days, &line, &zone, start, TWO_YEARS)?;
    }
    for day in &days {
        row.add("; ", &day.date)?;
        if day.skipped {
            row.add(" ", &"skipped")?;
        }
        if day.doubled {
            row.add(" ", &"doubled")?;
        }
    }
    row.compare("the line", row.wanted(), row.answer())
}

// Adds the number of fires of line `line`, or of all lines if `line` is 0, and a digest of them in
// their order. Each fire gives the digest 1000 times its minute, counted from 1970 on, plus the
// number of its line.
fn add_digest(row: &mut Row<'_>, fires: &[TabFire], line: usize) -> Result<(), AllocError> {
    let (mut count, mut sum) = (0_usize, 0_u64);
    for fire in fires {
        if line == 0 || fire.line == line {
            let minute = fire.fire.timestamp().as_second().unsigned_abs() / 60;
            let number = minute.wrapping_mul(1000).wrapping_add(fire.line as u64);
            count = count.saturating_add(1);
            sum = sum.wrapping_mul(1_099_511_628_211).wrapping_add(number);
        }
    }
    row.add("\n", &line)?;
    row.add(" ", &count)?;
    row.add(" ", &sum)
}

/// Compares the fires of a crontab, or the digests of its lines, with the file that the row names.
pub(crate) fn ask_tab(row: &mut Row<'_>) -> Result<()> {
    let name = row.cell();
    let tab = fs::read_to_string(row.rt, name).context(name)?;
    let clock = clock_named(row.cell())?;
    let form = row.cell();
    let span = (row.cell(), row.cell(), row.cell());
    let fires = fires_of(row.alloc(), clock, span, tab.as_str())?;
    let wanted = fs::read_to_string(row.rt, row.wanted()).context(row.wanted())?;
    if form == "fires" {
        for fire in &fires {
            row.add("\n", &fire.line)?;
            row.add(" ", &fire.fire.timestamp())?;
        }
    } else {
        for line in 0..wanted.as_str().lines().count() {
            add_digest(row, fires.as_slice(), line)?;
        }
    }
    row.compare(form, wanted.as_str().trim_end(), row.answer())
}
