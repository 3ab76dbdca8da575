//! The cost to begin a run of a crontab, up to its first wait: entries that a note of an earlier
//! run has are read and made ready.

use crate::rounds::least_cost;
use anyhow::{Context, Result, ensure};
use cron_agenda_scheduler::{AgendaStop, Lateness};
use cron_printing::printer::Printer;
use cron_scheduler::AlarmClock;
use cron_tab_agenda::Clock;
use cron_tab_lines::Crontab;
use cron_tab_running::{EntryClock, Failure, Noted, RunOrders, TabFile, TabWriter, run_files};
use cron_tab_tasks::{Form, Orders};
use cron_writer::watched::Watched;
use jiff::Timestamp;
use jiff::tz::TimeZone;
use std::alloc::{AllocError, Global};

const ORDERS: RunOrders<'static> = RunOrders {
    tasks: Orders {
        kind: Crontab::User,
        form: Form::Command,
        user: None,
        names: &[],
    },
    clock: Clock::Own,
    lateness: Lateness::Latest,
    reboot: false,
    most: u64::MAX,
    ends: true,
};

/// The error of a clock that can't wait.
#[derive(Clone, Copy, Debug)]
struct Stopped;

/// A clock that always shows the same instant, and can't wait.
#[derive(Clone, Copy)]
struct StoppedClock(Timestamp);

impl AlarmClock for StoppedClock {
    type Error = Stopped;

    fn now(&mut self) -> Result<Timestamp, Stopped> {
        Ok(self.0)
    }

    fn sleep_until(&mut self, _instant: Timestamp) -> Result<(), Stopped> {
        Err(Stopped)
    }
}

impl EntryClock for StoppedClock {
    fn begin(&mut self, _until: Timestamp, _entries: Vec<Vec<u8>>) {}
}

/// A note that the entries of a crontab were run up to `until`. Each line is an entry, whose zone
/// has no name.
fn note_of(alloc: Global, file: &[u8], until: Timestamp) -> Result<Noted, AllocError> {
    let mut entries = Vec::new(alloc);
    for line in file.split(|byte| *byte == b'\n') {
        let mut entry = Vec::from_slice(alloc, b"\t".as_slice())?;
        entry.extend_from_slice(line)?;
        entries.push(entry)?;
    }
    Ok(Noted { until, entries })
}

/// Begins a run of a crontab. Returns true if it came to its first wait.
fn begins(alloc: Global, file: &[u8], noted: &Noted, zones: &[TimeZone<'_>]) -> bool {
    let mut clock = StoppedClock(noted.until);
    let mut writer = TabWriter::new(alloc, Watched::new(Vec::new(alloc)));
    let mut complaints = Printer {
        out: Watched::new(Vec::new(alloc)),
    };
    let files = [TabFile {
        name: "tab",
        bytes: file,
    }];
    matches!(
        run_files(
            alloc,
            &ORDERS,
            &files,
            zones,
            noted,
            None,
            &mut clock,
            &mut writer,
            &mut complaints,
        ),
        Err(Failure::Stopped(AgendaStop::Clock(Stopped)))
    )
}

/// Prints the cost to begin a run of a crontab. All its entries are noted.
pub fn time_start(rt: &HostRuntime, file: &[u8], entries: u32) -> Result<()> {
    let zones = [TimeZone::UTC];
    let start = Timestamp::from_second(1_514_764_800)
        .ok()
        .context("no instant")?;
    let noted = note_of(rt.alloc(), file, start)?;
    let mut is_whole = true;
    let cost = least_cost(
        rt,
        5,
        1,
        || is_whole &= begins(rt.alloc(), file, &noted, &zones),
    )?;
    println!(rt; "tabs | a start of {entries} entries | {cost}")?;
    ensure!(is_whole, "tabs: a run ends before its first wait");
    Ok(())
}
