//! The costs of the calls of walks and of the calls by instants.

use crate::calls::Call;
use crate::rounds::least_cost;
use anyhow::Result;
use cron::Schedule;
use jiff::Timestamp;
use jiff::tz::{Offset, TimeZone};

/// The rule of Chicago's zone as a POSIX text.
pub const CHICAGO: &str = "CST6CDT,M3.2.0,M11.1.0";

const TEXTS: [&str; 8] = [
    "0 30 9,12,15 1,15 May-Aug Mon,Wed,Fri 2018/2",
    "* * * * * *",
    "0 0 0 29 2 *",
    "0 0 0 13 * Fri",
    "0 0 0 1 * ?",
    "0 0 0 L * ?",
    "0 0 0 * * *",
    "0 * * * * *",
];

/// A text that no date matches.
const NEVER: &str = "0 0 0 30 2 *";

/// The calls, each with its name in a row.
const CALLS: [(Call, &str); 7] = [
    (Call::Next, "next"),
    (Call::NextBack, "next_back"),
    (Call::FreshNext, "fresh next"),
    (Call::Fires, "fires"),
    (Call::FirstFire, "first fire"),
    (Call::DueFires, "due fires"),
    (Call::FirstDueFire, "first due fire"),
];

/// The instant where a call starts, so that it finds items: after it, or before it for `next_back`.
fn start_of(call: Call) -> Result<Timestamp> {
    let text = match call {
        Call::NextBack => "2100-12-31T12:00:00Z",
        _ => "2018-01-01T00:00:00Z",
    };
    Ok(text.parse::<Timestamp>()?)
}

/// Prints the least cost of each call in 150 rounds.
fn time_calls(
    rt: &HostRuntime,
    name: &str,
    text: &str,
    zone: &TimeZone<'_>,
    calls: u32,
) -> Result<()> {
    let schedule = Schedule::from_str(rt.alloc(), text)?;
    for (call, called) in CALLS {
        let start = start_of(call)?;
        let cost = least_cost(rt, 150, calls, || call.make(&schedule, start, zone, calls))?;
        println!(rt; "{called} | {name} | {text} | {cost}")?;
    }
    Ok(())
}

/// Prints the costs of the calls for each text in three zones, and for `NEVER` in two.
pub fn run(rt: &HostRuntime) -> Result<()> {
    let offset = TimeZone::fixed(Offset::from_seconds(19_800)?);
    let chicago = TimeZone::posix(CHICAGO)?;
    for text in TEXTS {
        time_calls(rt, "UTC", text, &TimeZone::UTC, 1_000)?;
        time_calls(rt, "+05:30", text, &offset, 1_000)?;
        time_calls(rt, "Chicago", text, &chicago, 1_000)?;
    }
    time_calls(rt, "UTC", NEVER, &TimeZone::UTC, 200)?;
    time_calls(rt, "Chicago", NEVER, &chicago, 200)
}
