//! Runs of a crontab on a clock that wakes 70 minutes late, by each lateness.

use crate::late_clock::LateClock;
use crate::{CHICAGO, NOVEMBER};
use anyhow::{Result, bail};
use cron_agenda_scheduler::Lateness;
use cron_printing::printer::Printer;
use cron_tab_agenda::Clock;
use cron_tab_lines::{Crontab, NamedZone};
use cron_tab_running::{Noted, RunOrders, TabFile, TabWriter, run_files};
use cron_tab_tasks::{Form, Orders, PLAIN, Ways};
use cron_writer::watched::Watched;
use jiff::tz::TimeZone;
use std::io;

/// A crontab with entries for each half hour, each hour and `@reboot`, a setting, and a line that
/// is refused.
const TAB: &str =
    "TO=nobody\n*/30 * * * * half\n60 * * * * never\n0 * * * * hour\n@reboot start%a%b\n";

/// A crontab with an entry in each of the two zones, and one below a name that is no zone's.
/// Chicago's entry fires at 06:00Z.
const ZONED: &str = "0 1 * * * chicago\nCRON_TZ=UTC\n30 5 * * * utc\n\
                     CRON_TZ=Mars/Phobos\n* * * * * never\n";

/// The zones that `CRON_TZ` may name.
const NAMES: [NamedZone<'static>; 1] = [NamedZone {
    name: b"UTC",
    zone: 1,
}];

/// The lateness of each run. The clock shows 05:00Z at first, and then 06:40Z and 08:10Z.
const RUNS: [Lateness; 3] = [Lateness::Each, Lateness::Latest, Lateness::Within(2400)];

fn orders(form: Form<'static>, lateness: Lateness, most: u64) -> RunOrders<'static> {
    RunOrders {
        tasks: Orders {
            kind: Crontab::User,
            form,
            user: None,
            names: &NAMES,
        },
        clock: Clock::Own,
        lateness,
        reboot: true,
        most,
        ends: true,
    }
}

// Runs a crontab, and reports refused lines on standard output too.
fn run_one(rt: &HostRuntime, tab: &str, orders: &RunOrders<'_>) -> Result<()> {
    let files = [TabFile {
        name: "tab",
        bytes: tab.as_bytes(),
    }];
    let mut writer = TabWriter::new(rt.alloc(), Watched::new(io::writer(rt)));
    let mut complaints = Printer {
        out: Watched::new(io::writer(rt)),
    };
    let mut clock = LateClock::new(NOVEMBER);
    let zones = [TimeZone::posix(CHICAGO)?, TimeZone::UTC];
    match run_files(
        rt.alloc(),
        orders,
        &files,
        &zones,
        &Noted::nothing(rt.alloc()),
        None,
        &mut clock,
        &mut writer,
        &mut complaints,
    ) {
        Ok(()) => Ok(()),
        Err(_) => bail!("the run failed"),
    }
}

// How a shell runs commands: each ends within a minute, runs alone, and writes into its log file.
fn logged() -> Ways<'static> {
    Ways {
        timeout: Some(60),
        locks: Some(b"locks".as_slice()),
        logs: Some(b"logs".as_slice()),
    }
}

/// Runs a crontab by each lateness. Then it runs it as lines for a shell, without any of the ways
/// and with all. Finally it runs a crontab with two zones.
pub(crate) fn run(rt: &HostRuntime) -> Result<()> {
    for lateness in RUNS {
        run_one(rt, TAB, &orders(Form::Command, lateness, 4))?;
    }
    run_one(rt, TAB, &orders(Form::Shell(PLAIN), Lateness::Each, 1))?;
    run_one(rt, TAB, &orders(Form::Shell(logged()), Lateness::Each, 1))?;
    run_one(rt, ZONED, &orders(Form::Command, Lateness::Each, 2))
}
