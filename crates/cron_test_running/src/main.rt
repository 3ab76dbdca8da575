//! Alarms and runs of `cron_tab_running` on clocks that wake late. The alarms ring at the fold and
//! the gap of Chicago's 2022, and the runs are of a crontab by each lateness. The file `stdout` has
//! the lines that must be printed. Rows of `data/looks.txt` are crontabs that change, and what a
//! model in Python counted of their output. The tests of `cron_scheduler` and of the notes of
//! `cron_tab_running` are here.
#![tactic(auto)]

mod late_clock;
mod looks;
mod runs;
#[cfg(test)]
mod tests;

use anyhow::{Result, bail};
use cron_fires::ClockChanges;
use cron_printing::printer::Printer;
use cron_tab_running::{Alarm, FireWriter, ring_at};
use cron_test_rows::{ask_files, sets_of};
use cron_writer::watched::Watched;
use jiff::tz::TimeZone;
use late_clock::LateClock;
use looks::Looks;
use std::io;

/// The rule of Chicago, where the clock goes from 02:00 to 03:00 on 2022-03-13, and from 02:00 back
/// to 01:00 on 2022-11-06.
const CHICAGO: &str = "CST6CDT,M3.2.0,M11.1.0";

/// Midnight in Chicago, at 2022-03-13T06:00:00Z and, in the next constant, at 2022-11-06T05:00:00Z,
/// in seconds since 1970.
const MARCH: i64 = 1_647_151_200;

const NOVEMBER: i64 = 1_667_710_800;

/// The alarms: from when on, in seconds since 1970, the expression, the rule at clock changes, and
/// how many fires. The first rings at both 01:30 of a fold and at the next day's. The others ring
/// once for each match, in the fold and in a gap.
const ROWS: [(i64, &str, ClockChanges, u64); 3] = [
    (NOVEMBER, "0 30 1 * * *", ClockChanges::AsShown, 3),
    (NOVEMBER, "0 30 1 * * *", ClockChanges::Once, 2),
    (MARCH, "0 30 2 * * *", ClockChanges::Once, 2),
];

// Prints the fires of each of `ROWS`, as an alarm does.
fn ring(rt: &HostRuntime) -> Result<()> {
    let mut writer = FireWriter {
        printer: Printer {
            out: Watched::new(io::writer(rt)),
        },
    };
    for (midnight, expression, changes, most) in ROWS {
        let schedules = sets_of(rt.alloc(), expression, " & ")?;
        let alarm = Alarm {
            schedules: schedules.as_slice(),
            changes,
            zone: TimeZone::posix(CHICAGO)?,
            most,
        };
        let mut clock = LateClock::new(midnight);
        if ring_at(rt.alloc(), &alarm, &mut clock, &mut writer).is_err() {
            bail!("it rang no more");
        }
    }
    Ok(())
}

fn main(rt: HostRuntime) -> Result<()> {
    ring(&rt)?;
    runs::run(&rt)?;
    ask_files(&rt, &[(Looks, "looks.txt")])
}
