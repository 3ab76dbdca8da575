//! The cost of a fire of two schedules as one, beside the cost of the first of them by itself, by
//! both rules.

use crate::calls::Call;
use crate::rounds::least_cost;
use crate::walks::CHICAGO;
use anyhow::Result;
use cron::Schedule;
use cron_fires::{CivilSeconds, Dues, Fires, Rule, Run, Union, fields_of};
use jiff::Timestamp;
use jiff::tz::TimeZone;

const PAIRS: [(&str, &str); 6] = [
    ("0 */5 * 1,15 * *", "0 */5 * * * Mon-Fri"),
    ("0 * * * * *", "30 * * * * *"),
    ("0 0 12 13 * *", "0 0 12 * * Fri"),
    ("0 0 0 * * *", "0 0 0 * * *"),
    ("0 0 0 * * *", "0 0 0 * * Mon-Fri"),
    ("0 0 0 1-20 * *", "0 0 0 * * Mon-Fri"),
];

const FIRES: u32 = 10_000;

/// Takes `FIRES` fires of a run. Returns the index of the last call that gave nothing, or 0.
fn take_fires<S: CivilSeconds, R: Rule>(run: &mut Run<'_, S, R>) -> u32 {
    let mut ended = 0;
    for call in 0..FIRES {
        if run.next().is_none() {
            ended = call;
        }
    }
    ended
}

/// Prints the costs of a fire and a due fire: of the first schedule, and of both as one.
fn time_pair(
    rt: &HostRuntime,
    name: &str,
    (one, other): (&str, &str),
    zone: &TimeZone<'_>,
) -> Result<()> {
    let start = "2018-01-01T00:00:00Z".parse::<Timestamp>()?;
    let first = Schedule::from_str(rt.alloc(), one)?;
    let second = Schedule::from_str(rt.alloc(), other)?;
    let both = Union {
        schedules: &[fields_of(&first), fields_of(&second)],
    };
    let cost = least_cost(rt, 20, FIRES, || {
        Call::Fires.make(&first, start, zone, FIRES)
    })?;
    println!(rt; "fires | {name} | {one} | {cost}")?;
    let cost = least_cost(rt, 20, FIRES, || {
        take_fires(&mut Fires::after(&both, start, zone))
    })?;
    println!(rt; "fires | {name} | {one} and {other} | {cost}")?;
    let cost = least_cost(rt, 20, FIRES, || {
        Call::DueFires.make(&first, start, zone, FIRES)
    })?;
    println!(rt; "due fires | {name} | {one} | {cost}")?;
    let cost = least_cost(rt, 20, FIRES, || {
        take_fires(&mut Dues::after(&both, start, zone))
    })?;
    println!(rt; "due fires | {name} | {one} and {other} | {cost}")?;
    Ok(())
}

/// Prints the costs of each pair in two zones.
pub fn run(rt: &HostRuntime) -> Result<()> {
    let chicago = TimeZone::posix(CHICAGO)?;
    for pair in PAIRS {
        time_pair(rt, "UTC", pair, &TimeZone::UTC)?;
        time_pair(rt, "Chicago", pair, &chicago)?;
    }
    Ok(())
}
