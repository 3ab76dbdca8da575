//! The cost of a fire on the days of a rule, beside the cost without the rule.

use crate::rounds::least_cost;
use anyhow::Result;
use cron::Schedule;
use cron_days::dates::Dates;
use cron_days::on_days::OnDays;
use cron_fires::{CivilSeconds, Fires, Rule, Run, fields_of};
use jiff::Timestamp;
use jiff::civil::Date;
use jiff::tz::TimeZone;

/// Schedules, each with how many dates are left out, and how many fires are taken. All of these
/// fires lie among the dates.
const RULES: [(&str, u32, u32); 2] = [
    ("0 30 9 * * Mon-Fri", 100, 140),
    ("* * * * * *", 10_000, 200_000),
];

/// Takes `fires` fires of a run. Returns the index of the last call that gave nothing, or 0.
fn take_fires<S: CivilSeconds, R: Rule>(run: &mut Run<'_, S, R>, fires: u32) -> u32 {
    let mut ended = 0;
    for call in 0..fires {
        if run.next().is_none() {
            ended = call;
        }
    }
    ended
}

/// `count` dates from 2018-01-01 on, each third day.
fn dates_of(rt: &HostRuntime, count: u32) -> Result<Vec<Date>> {
    let mut dates = Vec::new(rt.alloc());
    let mut date = "2018-01-01".parse::<Date>()?;
    for _ in 0..count {
        dates.push(date)?;
        date = date.tomorrow()?.tomorrow()?.tomorrow()?;
    }
    Ok(dates)
}

/// Prints the cost of one of the first `fires` fires of a schedule, without a rule, and without
/// `count` dates.
fn time_rule(
    rt: &HostRuntime,
    (text, count, fires): (&str, u32, u32),
    zone: &TimeZone<'_>,
) -> Result<()> {
    let start = "2018-01-01T00:00:00Z".parse::<Timestamp>()?;
    let schedule = Schedule::from_str(rt.alloc(), text)?;
    let fields = fields_of(&schedule);
    let dates = dates_of(rt, count)?;
    let set = OnDays {
        seconds: fields,
        days: Dates::without(rt.alloc(), dates.as_slice())?,
    };
    let cost = least_cost(rt, 200, fires, || {
        take_fires(&mut Fires::after(&fields, start, zone), fires)
    })?;
    println!(rt; "fires | {text} | {cost}")?;
    let cost = least_cost(rt, 200, fires, || {
        take_fires(&mut Fires::after(&set, start, zone), fires)
    })?;
    println!(rt; "fires | {text} without {count} dates | {cost}")?;
    Ok(())
}

/// Prints the costs of each rule in UTC.
pub fn run(rt: &HostRuntime) -> Result<()> {
    for rule in RULES {
        time_rule(rt, rule, &TimeZone::UTC)?;
    }
    Ok(())
}
