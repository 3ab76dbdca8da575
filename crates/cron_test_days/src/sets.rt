//! Rows of sets by rules of days.

use crate::rules::rules_of;
use anyhow::{Context, Result, bail};
use cron_days::all::All;
use cron_days::except::Except;
use cron_days::moved::Moved;
use cron_days::on_days::OnDays;
use cron_days::rest::rest_of;
use cron_fires::{AsShown, BackRun, CivilSeconds, Union, missed};
use cron_test_rows::{Row, sets_of};
use cron_units::fields::ScheduleFields;
use cron_units::way::Way;
use jiff::Timestamp;
use jiff::tz::TimeZone;

/// A stretch of civil seconds: `first`, and those after it that come before `end`. In UTC they are
/// instants too.
#[derive(Clone, Copy)]
struct Stretch {
    first: i64,
    end: i64,
}

// Compares a run of civil seconds, in ascending order, with the row's answer.
fn check_run(row: &mut Row<'_>, stretch: Stretch, run: &[i64]) -> Result<()> {
    row.add("\t", &run.len())?;
    match run {
        [first, .., last] => {
            row.add("\t", first)?;
            row.add("\t", last)?;
        }
        [one] => {
            row.add("\t", one)?;
            row.add("\t", one)?;
        }
        [] => row.add("\t", &"none\tnone")?,
    }
    let (mut sum, mut place) = (0_i64, 0_i64);
    for second in run {
        place = place.wrapping_add(1);
        let away = second.wrapping_sub(stretch.first);
        sum = sum.wrapping_add((place % 1000).wrapping_mul(away));
    }
    row.add("\t", &(sum % 4_294_967_296))?;
    row.check("its civil seconds")
}

// Compares the fires of a set in a stretch, as a run and a run back give them.
fn ask_set<S: CivilSeconds>(row: &mut Row<'_>, set: &S, stretch: Stretch) -> Result<()> {
    let zone = TimeZone::UTC;
    let last = Timestamp::from_second(stretch.first.wrapping_sub(1))?;
    let now = Timestamp::from_second(stretch.end.wrapping_sub(1))?;
    let mut run = Vec::new(row.alloc());
    for fire in missed(row.alloc(), set, last, now, &zone)? {
        run.push(fire.timestamp().as_second())?;
    }
    check_run(row, stretch, run.as_slice())?;
    run.clear();
    for fire in BackRun::<&S, AsShown<TimeZone<'_>>>::by(set, now, &zone) {
        let second = fire.timestamp().as_second();
        if second < stretch.first {
            break;
        }
        run.push(second)?;
    }
    run.reverse();
    check_run(row, stretch, run.as_slice())
}

fn schedule_of(row: &Row<'_>, text: &str) -> Result<ScheduleFields> {
    let schedules = sets_of(row.alloc(), text, " ; ")?;
    Ok(*schedules.first().context("no expression")?)
}

// Compares what a schedule matches and another doesn't: by several schedules, where neither marks
// the last day and the row doesn't ask for a walk.
fn ask_rest(
    row: &mut Row<'_>,
    kind: &str,
    seconds: ScheduleFields,
    without: ScheduleFields,
    stretch: Stretch,
) -> Result<()> {
    if kind == "except" {
        let rest = rest_of(&seconds, &without);
        if let Some(parts) = &rest {
            return ask_set(row, &Union { schedules: parts }, stretch);
        }
    }
    ask_set(row, &Except { seconds, without }, stretch)
}

/// Compares the civil seconds of a set in a stretch.
pub(crate) fn ask(row: &mut Row<'_>) -> Result<()> {
    let kind = row.cell();
    let text = row.cell();
    let seconds = schedule_of(row, text)?;
    let other = row.cell();
    let first = row.cell().parse::<i64>()?;
    let end = row.cell().parse::<i64>()?;
    let stretch = Stretch { first, end };
    if kind == "except" || kind == "walk" {
        let without = schedule_of(row, other)?;
        return ask_rest(row, kind, seconds, without, stretch);
    }
    let rules = rules_of(row.alloc(), other)?;
    let days = All {
        rules: rules.as_slice(),
    };
    if kind == "on" {
        return ask_set(row, &OnDays { seconds, days }, stretch);
    }
    let way = match kind {
        "after" => Way::Ahead,
        "before" => Way::Back,
        _ => bail!("no kind"),
    };
    let set = Moved { seconds, days, way };
    ask_set(row, &set, stretch)
}
