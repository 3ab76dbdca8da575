//! Rows of windows.

use crate::spans::Spans;
use anyhow::{Context, Result, bail};
use cron_fires::{AsShown, Once, Rule};
use cron_test_rows::{Row, sets_of, zone_file, zone_named};
use cron_units::fields::ScheduleFields;
use cron_windows::windows::Windows;
use jiff::Timestamp;
use jiff::tz::TimeZone;

/// Two seconds, and maybe one between them.
#[derive(Clone, Copy)]
struct Span {
    from: i64,
    at: Option<i64>,
    to: i64,
}

/// The seven sets of an expression.
pub(crate) fn schedule_of(row: &Row<'_>, text: &str) -> Result<ScheduleFields> {
    let schedules = sets_of(row.alloc(), text, " ; ")?;
    Ok(*schedules.first().context("no expression")?)
}

// A late instant of a second: calls don't ask for the part of a second.
fn late(second: i64) -> Result<Timestamp> {
    Ok(Timestamp::new(second, 999_999_999)?)
}

// Compares the stretches and the windows of a row.
fn check_spans<S, C, R>(row: &mut Row<'_>, windows: &Windows<'_, S, C, R>, span: Span) -> Result<()>
where
    S: cron_fires::CivilSeconds,
    C: cron_fires::CivilSeconds,
    R: Rule,
{
    let (from, to) = (Timestamp::from_second(span.from)?, late(span.to)?);
    let mut states = Spans::from(span.from);
    for state in windows.states(from, to) {
        states.add(state.first, state.end, i64::from(state.value));
    }
    states.tell(row)?;
    let mut open = Spans::from(span.from);
    for window in windows.open_between(from, to) {
        open.add(window.first, window.end, i64::from(window.value));
    }
    open.tell(row)?;
    row.add("\t", &windows.open_seconds(from, to))?;
    row.check("its windows")
}

// Compares the state around an instant.
fn check_state<S, C, R>(
    row: &mut Row<'_>,
    windows: &Windows<'_, S, C, R>,
    span: Span,
    at: i64,
) -> Result<()>
where
    S: cron_fires::CivilSeconds,
    C: cron_fires::CivilSeconds,
    R: Rule,
{
    let (from, to) = (late(span.from)?, Timestamp::from_second(span.to)?);
    match windows.state_at(from, late(at)?, to) {
        Some(state) => {
            row.add("\t", &state.first)?;
            row.add("\t", &state.end)?;
            row.add(
                "\t",
                &i64::from(windows.is_open(Timestamp::from_second(at)?)),
            )?;
        }
        None => row.add("\t", &"none")?,
    }
    row.check("its state")
}

fn check<S, C, R>(row: &mut Row<'_>, windows: &Windows<'_, S, C, R>, span: Span) -> Result<()>
where
    S: cron_fires::CivilSeconds,
    C: cron_fires::CivilSeconds,
    R: Rule,
{
    match span.at {
        Some(at) => check_state(row, windows, span, at),
        None => check_spans(row, windows, span),
    }
}

// Compares a row of windows by a rule.
fn ask_by<R>(
    row: &mut Row<'_>,
    opens: &ScheduleFields,
    closing: &str,
    zone: &R::Clock,
    span: Span,
) -> Result<()>
where
    R: Rule,
{
    let (kind, rest) = closing.split_once(" ").context("no closing")?;
    if kind == "after" {
        let seconds = rest.parse::<u32>()?;
        let windows = Windows::<_, _, R>::lasting(opens, seconds, zone).context("no seconds")?;
        return check(row, &windows, span);
    }
    let closes = schedule_of(row, rest)?;
    let windows = Windows::<_, _, R>::closed_by(opens, &closes, zone);
    check(row, &windows, span)
}

fn ask(row: &mut Row<'_>, with_instant: bool) -> Result<()> {
    let rule = row.cell();
    let name = row.cell();
    let file = zone_file(row, name)?;
    let zone = zone_named(name, &file)?;
    let text = row.cell();
    let opens = schedule_of(row, text)?;
    let closing = row.cell();
    let from = row.cell().parse::<i64>()?;
    let at = if with_instant {
        Some(row.cell().parse::<i64>()?)
    } else {
        None
    };
    let to = row.cell().parse::<i64>()?;
    let span = Span { from, at, to };
    match rule {
        "shown" => ask_by::<AsShown<TimeZone<'_>>>(row, &opens, closing, &zone, span),
        "once" => ask_by::<Once<TimeZone<'_>>>(row, &opens, closing, &zone, span),
        _ => bail!("no rule"),
    }
}

/// Compares the stretches and the windows between two seconds.
pub(crate) fn ask_windows(row: &mut Row<'_>) -> Result<()> {
    ask(row, false)
}

/// Compares the stretch around a second.
pub(crate) fn ask_state(row: &mut Row<'_>) -> Result<()> {
    ask(row, true)
}
