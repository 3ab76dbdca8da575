//! Runs of plans in the fold and the gap of Chicago's 2022, on clocks that are late, early, or go
//! back. The waits and the fires were counted second by second, with the offsets of Python's
//! `zoneinfo`.

use crate::clocks::{ScriptedClock, or_none};
use anyhow::{Context, Error, Result, ensure};
use cron::schedule::Moment;
use cron_fires::{DueFire, Fire, Union};
use cron_scheduler::{Job, Plan, Start, Stop};
use cron_test_rows::{Row, sets_of, zone_file, zone_named};
use jiff::tz::{Offset, TimeZone};
use std::fmt::Write;

/// A job that notes each fire. Its run number `fails_at` fails, from 1 on; none fails for 0.
#[derive(Drop)]
struct NotingJob {
    noted: String,
    runs: u64,
    fails_at: u64,
}

impl<F: Fire> Job<F> for NotingJob {
    type Error = Error;

    fn run(&mut self, fire: F) -> Result<()> {
        let instant = fire.instant();
        let comma = if self.runs == 0 { "" } else { ", " };
        write!(self.noted, "{comma}{instant}")?;
        self.runs = self.runs.saturating_add(1);
        ensure!(self.runs != self.fails_at, "{instant}");
        Ok(())
    }
}

fn ask_from<'x, F: Fire>(
    row: &mut Row<'_>,
    case: &str,
    table: &'x Union<'x>,
    zone: &'x TimeZone<'x>,
    start: Start<F>,
) -> Result<()> {
    let most = match row.cell() {
        "-" => None,
        most => Some(most.parse::<u64>()?),
    };
    let words: Vec<&str> = row.cell().split(' ').collect(row.alloc())?;
    let mut clock = ScriptedClock {
        words: words.as_slice(),
        waits: String::new(row.alloc()),
        count: 0,
    };
    let mut job = NotingJob {
        noted: String::new(row.alloc()),
        runs: 0,
        fails_at: row.cell().parse::<u64>()?,
    };
    let plan = Plan {
        table,
        zone,
        start,
        most,
    };
    let ended = plan.run(&mut clock, &mut job);
    row.add("", &or_none(clock.waits.as_str()))?;
    row.add(" | ", &or_none(job.noted.as_str()))?;
    match ended {
        Ok(()) => row.add(" | ", &"ok")?,
        Err(Stop::Clock(_)) => row.add(" | ", &"the clock failed")?,
        Err(Stop::Job(error)) => row.add(" | the job failed at ", &error)?,
    }
    row.check(case)
}

/// Replays a row. It has the case, a rule, expressions, a zone, a start, the greatest number of
/// fires to run, and what the clock shows after each wait. The number of the run that fails
/// follows, or 0. The answer has the waits, the fires that are run, and how the plan ends. A start
/// is an instant, or `past` with what a clock showed and its offset.
pub(crate) fn ask(row: &mut Row<'_>) -> Result<()> {
    let (case, rule) = (row.cell(), row.cell());
    let schedules = sets_of(row.alloc(), row.cell(), " & ")?;
    let name = row.cell();
    let file = zone_file(row, name)?;
    let zone = zone_named(name, &file)?;
    let start = row.cell();
    let table = Union {
        schedules: schedules.as_slice(),
    };
    if rule == "once" {
        let start = Start::<DueFire>::After(start.parse()?);
        return ask_from(row, case, &table, &zone, start);
    }
    let start = match start.strip_prefix("past ") {
        Some(fire) => {
            let (shown, offset) = fire.split_once(' ').context("no offset")?;
            let offset = Offset::from_seconds(offset.parse::<i32>()?)?;
            Start::Past(Moment::from_parts(shown.parse()?, offset).context("no moment")?)
        }
        None => Start::<Moment>::After(start.parse()?),
    };
    ask_from(row, case, &table, &zone, start)
}
