//! Rows of rotas.

use crate::spans::Spans;
use crate::windows::schedule_of;
use anyhow::{Context, Result, bail};
use cron_fires::{AsShown, Once, Rule};
use cron_rotas::rota::Rota;
use cron_rotas::swap::Swap;
use cron_test_rows::{Row, zone_file, zone_named};
use cron_units::fields::ScheduleFields;
use jiff::Timestamp;
use jiff::tz::TimeZone;
use std::alloc::Global;

/// What a row asks of a rota.
#[derive(Clone, Copy)]
enum Question {
    /// The shifts between two seconds.
    Shifts(i64, i64),
    /// Who is on duty at a second.
    Who(i64),
}

/// What a row says of a rota.
#[derive(Drop)]
struct Given<'r> {
    people: u32,
    handovers: ScheduleFields,
    start: i64,
    swaps: &'r [Swap],
}

/// The swaps of a text, with `;` between them.
pub(crate) fn swaps_of(alloc: Global, text: &str) -> Result<Vec<Swap>> {
    let mut swaps = Vec::new(alloc);
    for part in text.split(";") {
        if part.is_empty() {
            continue;
        }
        let (from, rest) = part.split_once(" ").context("no end")?;
        let (until, person) = rest.split_once(" ").context("no person")?;
        swaps.push(Swap {
            from: from.parse::<i64>()?,
            until: until.parse::<i64>()?,
            person: person.parse::<u32>()?,
        })?;
    }
    Ok(swaps)
}

// Compares the shifts and the seconds of duty.
fn check_shifts<S, R>(row: &mut Row<'_>, rota: &Rota<'_, S, R>, from: i64, to: i64) -> Result<()>
where
    S: cron_fires::CivilSeconds,
    R: Rule,
{
    let (first, end) = (Timestamp::from_second(from)?, Timestamp::from_second(to)?);
    let mut shifts = Spans::from(from);
    for shift in rota.shifts(first, end) {
        shifts.add(shift.first, shift.end, i64::from(shift.value));
    }
    shifts.tell(row)?;
    let mut separator = "\t";
    for person in 0..rota.people() {
        row.add(separator, &rota.seconds_of_duty(person, first, end))?;
        separator = " ";
    }
    row.check("its shifts")
}

// Compares a row of a rota by a rule.
fn ask_by<R: Rule>(
    row: &mut Row<'_>,
    given: &Given<'_>,
    zone: &R::Clock,
    question: Question,
) -> Result<()> {
    let start = Timestamp::from_second(given.start)?;
    let rota = Rota::<_, R>::of(given.people, &given.handovers, start, given.swaps, zone)?;
    match question {
        Question::Shifts(from, to) => check_shifts(row, &rota, from, to),
        Question::Who(at) => {
            match rota.who(Timestamp::from_second(at)?) {
                Some(person) => row.add("\t", &person)?,
                None => row.add("\t", &"nobody")?,
            }
            row.check("who is on duty")
        }
    }
}

fn ask(row: &mut Row<'_>, asks_who: bool) -> Result<()> {
    let rule = row.cell();
    let name = row.cell();
    let file = zone_file(row, name)?;
    let zone = zone_named(name, &file)?;
    let people = row.cell().parse::<u32>()?;
    let text = row.cell();
    let handovers = schedule_of(row, text)?;
    let start = row.cell().parse::<i64>()?;
    let swaps = swaps_of(row.alloc(), row.cell())?;
    let first = row.cell().parse::<i64>()?;
    let question = if asks_who {
        Question::Who(first)
    } else {
        Question::Shifts(first, row.cell().parse::<i64>()?)
    };
    let given = Given {
        people,
        handovers,
        start,
        swaps: swaps.as_slice(),
    };
    match rule {
        "shown" => ask_by::<AsShown<TimeZone<'_>>>(row, &given, &zone, question),
        "once" => ask_by::<Once<TimeZone<'_>>>(row, &given, &zone, question),
        _ => bail!("no rule"),
    }
}

/// Compares the shifts between two seconds, and each person's seconds.
pub(crate) fn ask_rota(row: &mut Row<'_>) -> Result<()> {
    ask(row, false)
}

/// Compares who is on duty at a second.
pub(crate) fn ask_who(row: &mut Row<'_>) -> Result<()> {
    ask(row, true)
}
