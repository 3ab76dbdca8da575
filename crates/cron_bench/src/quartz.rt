//! The costs of a fire and of a first fire of a form of Quartz, which is a union of up to twelve
//! schedules. Beside them are the costs of its first schedule by itself.

use crate::rounds::least_cost;
use crate::walks::CHICAGO;
use anyhow::{Context, Result};
use cron_fires::{Fires, Union, first_fire_after};
use cron_quartz::read;
use cron_units::fields::ScheduleFields;
use jiff::Timestamp;
use jiff::tz::TimeZone;

const FORMS: [&str; 5] = [
    "0 0 12 ? * 6#3",
    "0 0 12 15W * ?",
    "0 0 12 L-3 * ?",
    "0 0 12 LW * ?",
    "0 * * LW * ?",
];

/// The number of fires that are taken, and of searches for a first fire.
const CALLS: u32 = 1_000;

/// Takes `CALLS` fires of the union, from a new run whenever one ends. Returns the index
/// of the last call that found an end, or 0.
fn take_fires<'x>(union: &'x Union<'x>, start: Timestamp, zone: &'x TimeZone<'x>) -> u32 {
    let mut run = Fires::after(union, start, zone);
    let mut ended = 0;
    for call in 0..CALLS {
        if run.next().is_none() {
            run = Fires::after(union, start, zone);
            ended = call;
        }
    }
    ended
}

/// Searches the first fire of the union `CALLS` times. Returns the index of the last
/// call that found none, or 0.
fn ask_firsts(union: &Union<'_>, start: Timestamp, zone: &TimeZone<'_>) -> u32 {
    let mut ended = 0;
    for call in 0..CALLS {
        if first_fire_after(union, start, zone).is_none() {
            ended = call;
        }
    }
    ended
}

/// Searches the first fire of each schedule by itself `CALLS` times. Returns the index of the last
/// call that found none, or 0.
fn ask_each(schedules: &[ScheduleFields], start: Timestamp, zone: &TimeZone<'_>) -> u32 {
    let mut ended = 0;
    for call in 0..CALLS {
        for fields in schedules {
            if first_fire_after(fields, start, zone).is_none() {
                ended = call;
            }
        }
    }
    ended
}

/// Prints the costs of a fire and of a first fire of a form.
fn time_form(rt: &HostRuntime, name: &str, form: &str, zone: &TimeZone<'_>) -> Result<()> {
    let start = "2018-01-01T00:00:00Z".parse::<Timestamp>()?;
    let expression = read(form).ok().context("a form is refused")?;
    let schedules = expression.as_slice();
    let count = schedules.len();
    let first = Union {
        schedules: schedules.get(..1).context("a form has no schedule")?,
    };
    let union = Union { schedules };
    let one = least_cost(rt, 20, CALLS, || take_fires(&first, start, zone))?;
    let all = least_cost(rt, 20, CALLS, || take_fires(&union, start, zone))?;
    println!(rt; "quartz fires | {name} | {form} | {count} | {one} | {all}")?;
    let one = least_cost(rt, 20, CALLS, || ask_firsts(&first, start, zone))?;
    let all = least_cost(rt, 20, CALLS, || ask_firsts(&union, start, zone))?;
    let each = least_cost(rt, 20, CALLS, || ask_each(schedules, start, zone))?;
    println!(rt; "quartz first fire | {name} | {form} | {count} | {one} | {each} | {all}")?;
    Ok(())
}

/// Prints for each form in two zones the number of its schedules, the cost of its first schedule,
/// and the cost of all of them as one. Between both costs of a first fire it prints a third: the
/// cost of all schedules by themselves, one after another.
pub fn run(rt: &HostRuntime) -> Result<()> {
    let chicago = TimeZone::posix(CHICAGO)?;
    for form in FORMS {
        time_form(rt, "UTC", form, &TimeZone::UTC)?;
        time_form(rt, "Chicago", form, &chicago)?;
    }
    Ok(())
}
