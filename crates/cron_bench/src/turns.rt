//! The costs of runs around a transition of a zone: in the zone of a file, and by Chicago's rule.

use crate::calls::Call;
use crate::rounds::least_cost;
use crate::walks::CHICAGO;
use anyhow::{Context, Result};
use cron::Schedule;
use jiff::Timestamp;
use jiff::tz::{TimeZone, Tzif};
use std::fs;

/// The number of fires of a run. The next constant is the number of searches for a first fire.
const FIRES: u32 = 1_000_000;

const FIRST_FIRES: u32 = 1_000;

const RUNS: [&str; 8] = [
    "* * * * * *",
    "0 * * * * *",
    "0 0 0 * * *",
    "0 30 9,12,15 1,15 May-Aug Mon,Wed,Fri 2018/2",
    "0 0 0 1 * ?",
    "0 0 0 L * ?",
    "0 0 0 13 * Fri",
    "0 0 0 29 2 *",
];

const FIRSTS: [&str; 5] = [
    "* * * * * *",
    "0 * * * * *",
    "0 0 0 * * *",
    "0 30 9,12,15 1,15 May-Aug Mon,Wed,Fri 2018/2",
    "* * 1 * * *",
];

/// The calls that are measured in a run, each with its name in a row. The next constant has the
/// calls for a first fire.
const RUN_CALLS: [(Call, &str); 3] = [
    (Call::Next, "walk"),
    (Call::Fires, "fires"),
    (Call::DueFires, "due fires"),
];

const FIRST_CALLS: [(Call, &str); 3] = [
    (Call::FreshNext, "fresh next"),
    (Call::FirstFire, "first fire"),
    (Call::FirstDueFire, "first due fire"),
];

/// A run starts half a million seconds before the transition.
const RUN_UP: i64 = 500_000;

/// The starts of the searches for a first fire, in seconds from the transition: far before it, in
/// the hour before it, at it, in the hour after it, and far after it.
const PLACES: [(&str, i64); 5] = [
    ("far before", -10_000_000),
    ("before", -1_800),
    ("at", 0),
    ("after", 1_800),
    ("far after", 5_000_000),
];

/// A zone with its name in a row, and the instant of the transition, in seconds since 1970.
#[derive(Drop)]
struct Setting<'z> {
    name: &'static str,
    zone: TimeZone<'z>,
    turn: i64,
}

impl<'z> Setting<'z> {
    /// The instant `seconds` seconds after the transition.
    fn instant(&self, seconds: i64) -> Result<Timestamp> {
        Ok(Timestamp::from_second(self.turn.saturating_add(seconds))?)
    }
}

/// Prints the costs of a walk, of a run of fires and of a run of due fires, each with `FIRES`
/// calls.
fn time_run(rt: &HostRuntime, setting: &Setting<'_>, text: &str) -> Result<()> {
    let schedule = Schedule::from_str(rt.alloc(), text)?;
    let start = setting.instant(-RUN_UP)?;
    let (name, zone) = (setting.name, &setting.zone);
    for (call, called) in RUN_CALLS {
        let cost = least_cost(rt, 5, FIRES, || call.make(&schedule, start, zone, FIRES))?;
        println!(rt; "turn {called} | {name} | {text} | {cost}")?;
    }
    Ok(())
}

/// Prints the costs of a first fire, of a first due fire, and of `next` on a new walk, each from
/// `start`.
fn time_place(
    rt: &HostRuntime,
    setting: &Setting<'_>,
    schedule: &Schedule,
    place: &str,
    start: Timestamp,
) -> Result<()> {
    let (name, zone, text) = (setting.name, &setting.zone, schedule.source());
    for (call, called) in FIRST_CALLS {
        let cost = least_cost(rt, 150, FIRST_FIRES, || {
            call.make(schedule, start, zone, FIRST_FIRES)
        })?;
        println!(rt; "turn {called} | {name} | {place} | {text} | {cost}")?;
    }
    Ok(())
}

/// Prints the costs of a first fire at each of `PLACES`.
fn time_first(rt: &HostRuntime, setting: &Setting<'_>, text: &str) -> Result<()> {
    let schedule = Schedule::from_str(rt.alloc(), text)?;
    for (place, seconds) in PLACES {
        let start = setting.instant(seconds)?;
        time_place(rt, setting, &schedule, place, start)?;
    }
    Ok(())
}

/// Prints the costs of each run.
fn time_runs(rt: &HostRuntime, setting: &Setting<'_>) -> Result<()> {
    for text in RUNS {
        time_run(rt, setting, text)?;
    }
    Ok(())
}

/// Prints the costs of each text's first fires.
fn time_firsts(rt: &HostRuntime, setting: &Setting<'_>) -> Result<()> {
    for text in FIRSTS {
        time_first(rt, setting, text)?;
    }
    Ok(())
}

/// Prints the costs of runs and of first fires in a zone.
fn time_zone(rt: &HostRuntime, setting: &Setting<'_>) -> Result<()> {
    time_runs(rt, setting)?;
    time_firsts(rt, setting)
}

/// The instant of the first transition of a zone after June of 2022, in seconds since 1970.
fn turn_of(zone: &TimeZone<'_>) -> Result<i64> {
    let july = "2022-07-01T00:00:00Z".parse::<Timestamp>()?;
    let turn = zone
        .following(july)
        .next()
        .context("it has no turn after June of 2022")?;
    Ok(turn.timestamp().as_second())
}

/// Prints the costs of runs and first fires around a transition of the zone in a file, and around
/// the same instant by Chicago's rule.
pub fn run(rt: &HostRuntime, path: &str) -> Result<()> {
    let bytes = fs::read(rt, path).context(path)?;
    let table = Tzif::parse(rt.alloc(), None, bytes.as_slice()).context(path)?;
    let zone = TimeZone::tzif(&table);
    let turn = turn_of(&zone).context(path)?;
    let name = "file";
    time_zone(rt, &Setting { name, zone, turn })?;
    let (name, zone) = ("rule", TimeZone::posix(CHICAGO)?);
    time_zone(rt, &Setting { name, zone, turn })
}
