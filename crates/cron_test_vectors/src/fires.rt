//! Fires by instants. A row has the search, and an instant, an instant with the number of fires, or
//! two instants. The instants of the fires in `fires.txt` were counted by hand or with Python's
//! `zoneinfo`.

use crate::answers::add_all;
use crate::zoned::Case;
use anyhow::{Context, Result};
use cron::Schedule;
use cron::schedule::Moment;
use cron_fires::{Fires, first_fire_after, first_fire_past, last_fire_by, missed};
use cron_test_rows::Row;
use jiff::Timestamp;
use jiff::tz::TimeZone;
use std::alloc::{AllocError, Global};
use std::mem;

type Answers = Vec<Option<Moment>>;

/// The next `count` answers of a run, also after its end.
fn run(
    alloc: Global,
    fires: &mut Fires<'_, Schedule>,
    count: usize,
) -> Result<Answers, AllocError> {
    let mut answers = Vec::new(alloc);
    for _ in 0..count {
        answers.push(fires.next())?;
    }
    Ok(answers)
}

/// The first fire past `fire` if `past` is true, or else the first one after its instant. `None` if
/// `fire` is `None` or no fire follows.
fn fire_behind(
    schedule: &Schedule,
    zone: &TimeZone<'_>,
    fire: &Option<Moment>,
    past: bool,
) -> Option<Moment> {
    let Some(fire) = fire else {
        return None;
    };
    if past {
        first_fire_past(schedule, fire, zone)
    } else {
        first_fire_after(schedule, fire.timestamp(), zone)
    }
}

/// `count` answers: `first`, then the first fire past it, and so on. If `past` is false, each
/// answer is the first fire after the instant of the one before.
fn in_turn(
    alloc: Global,
    case: Case<'_>,
    first: Option<Moment>,
    past: bool,
    count: usize,
) -> Result<Answers, AllocError> {
    let mut answers = Vec::new(alloc);
    let mut next = first;
    for _ in 0..count {
        let behind = fire_behind(case.schedule, case.zone, &next, past);
        answers.push(mem::replace(&mut next, behind))?;
    }
    Ok(answers)
}

/// Compares the fires after `last` and up to `now`, by a run and by `missed`.
fn ask_between(row: &mut Row<'_>, case: Case<'_>, last: Timestamp, now: Timestamp) -> Result<()> {
    for fire in Fires::between(case.schedule, last, now, case.zone) {
        row.add(", ", &fire)?;
    }
    row.check("Fires::between")?;
    for fire in missed(row.alloc(), case.schedule, last, now, case.zone)? {
        row.add(", ", &fire)?;
    }
    Ok(())
}

pub(crate) fn ask(row: &mut Row<'_>, case: Case<'_>) -> Result<()> {
    let (which, start) = (row.cell(), row.cell().parse()?);
    if which == "last by" {
        let fire = last_fire_by(case.schedule, start, case.zone);
        return Ok(add_all(row, "", &[fire])?);
    }
    if which == "between" {
        let now = row.cell().parse()?;
        return ask_between(row, case, start, now);
    }
    let (alloc, count) = (row.alloc(), row.cell().parse()?);
    let first = first_fire_after(case.schedule, start, case.zone);
    let answers = match which {
        "by instants" => in_turn(alloc, case, first, false, count)?,
        "by fires" => in_turn(alloc, case, first, true, count)?,
        "run past" => {
            let first = first.context("no fire")?;
            run(
                alloc,
                &mut Fires::past(case.schedule, &first, case.zone),
                count,
            )?
        }
        _ => run(
            alloc,
            &mut Fires::after(case.schedule, start, case.zone),
            count,
        )?,
    };
    Ok(add_all(row, "", answers.as_slice())?)
}
