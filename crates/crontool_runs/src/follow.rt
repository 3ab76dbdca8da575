//! Runs the entries of files, and follows the files as they change.

use crate::files::{Files, Opener};
use crate::run::status_of;
use crate::state::State;
use cron_agenda_scheduler::AgendaStop;
use cron_notes::machine::MachineStore;
use cron_printing::printer::Printer;
use cron_replies::status::Status;
use cron_scheduler::MachineClock;
use cron_tab_running::{
    Failure, FollowError, Interruption, Notebook, Noted, RunClock, RunOrders, TabFile, TabWriter,
    follow, run_files,
};
use cron_tab_tasks::Orders;
use cron_writer::watched::Watched;
use crontool_machine::machine::{Surroundings, no_memory, open_zone, read_all};
use crontool_machine::zones::TabZones;
use jiff::tz::TimeZone;
use jiff::{Error, Timestamp};
use std::alloc::{AllocError, Global};
use std::io;

/// The machine's clock, which also checks the files for changes and writes notes to the machine's
/// files.
type FileClock<'r> = RunClock<
    'r,
    MachineClock<'r, HostRuntime>,
    Files<'r>,
    MachineStore<'r, HostRuntime>,
>;

fn clock_of<'r>(rt: &'r HostRuntime, state: Option<&'r State>, files: Files<'r>) -> FileClock<'r> {
    let notebook = match state {
        Some(state) => Some(Notebook {
            store: MachineStore(rt),
            path: state.path.as_str(),
        }),
        None => None,
    };
    RunClock {
        alloc: rt.alloc(),
        clock: MachineClock(rt),
        files,
        notebook,
        noted: Noted::nothing(rt.alloc()),
        until: None,
        seen: Timestamp::MIN,
    }
}

// Writes to standard error why the note of what was run couldn't be written to `path`.
fn say_unnoted(rt: &HostRuntime, path: &str, error: &io::Error) -> Status {
    let _told = eprintln!(rt; "error: {path}: {error}");
    Status::WriteFailed
}

// The status of the subcommand `run`. If the run failed, the reason is written. `path` is where its
// notes are written.
fn end_of(rt: &HostRuntime, ended: Result<(), FollowError<Error, Status>>, path: &str) -> Status {
    match ended {
        Ok(()) => Status::Done,
        Err(FollowError::Files(status)) => status,
        Err(FollowError::Run(Failure::Stopped(AgendaStop::Clock(Interruption::Unnoted(error))))) =>
            { say_unnoted(rt, path, &error) }
        Err(FollowError::Run(failure)) => status_of(rt, Err(failure)),
    }
}

// Runs the entries of files in `zone`, or in the zones that `CRON_TZ` names, up to `orders.most`
// runs.
fn run_zoned(
    rt: &HostRuntime,
    orders: &RunOrders<'_>,
    files: &[TabFile<'_>],
    zone: TimeZone<'_>,
    around: &Surroundings,
) -> Result<Status, Status> {
    let alloc = rt.alloc();
    let mut opened = TabZones::new(alloc);
    for file in files {
        opened.open(rt, orders.tasks.kind, file.bytes, around)?;
    }
    let (Ok(names), Ok(zones)) = (opened.names(alloc), opened.behind(alloc, zone)) else {
        return Err(no_memory(rt));
    };
    let tasks = Orders {
        names: names.as_slice(),
        ..orders.tasks
    };
    let orders = RunOrders { tasks, ..*orders };
    let mut clock = clock_of(rt, None, Files::new(rt, &[]));
    let mut writer = TabWriter::new(alloc, Watched::new(io::writer(rt)));
    let mut told = Printer {
        out: Watched::new(rt.stderr()),
    };
    let ended = run_files(
        alloc,
        &orders,
        files,
        zones.as_slice(),
        &Noted::nothing(alloc),
        None,
        &mut clock,
        &mut writer,
        &mut told,
    );
    Ok(status_of(rt, ended))
}

fn files_of<'a>(
    alloc: Global,
    names: &'a [&str],
    read: &'a [Vec<u8>],
) -> Result<Vec<TabFile<'a>>, AllocError> {
    let mut files = Vec::new(alloc);
    for (name, bytes) in names.iter().zip(read.iter()) {
        files.push(TabFile {
            name,
            bytes: bytes.as_slice(),
        })?;
    }
    Ok(files)
}

/// Runs the entries of files, up to `orders.most` runs of all files together. The files aren't read
/// again.
pub(crate) fn run_counted(
    rt: &HostRuntime,
    orders: &RunOrders<'_>,
    names: &[&str],
    zone: &str,
) -> Result<Status, Status> {
    let read = read_all(rt, names)?;
    let around = Surroundings::of(rt)?;
    let opened = open_zone(rt, zone, &around)?;
    match files_of(rt.alloc(), names, read.as_slice()) {
        Ok(files) => run_zoned(rt, orders, files.as_slice(), opened.time_zone(), &around),
        Err(_) => Err(no_memory(rt)),
    }
}

/// Runs the entries of files without a limit. When a file changes, the run goes on with its new
/// entries. When no entry fires any more, it waits for a change, unless all files are standard
/// input.
pub(crate) fn run_following<'r>(
    rt: &'r HostRuntime,
    orders: &RunOrders<'_>,
    state: Option<&'r State>,
    names: &'r [&'r str],
    zone: &str,
) -> Result<Status, Status> {
    let alloc = rt.alloc();
    let noted = match state {
        Some(state) => state.read(rt)?,
        None => Noted::nothing(alloc),
    };
    let around = Surroundings::of(rt)?;
    let opened = open_zone(rt, zone, &around)?;
    let opener = Opener {
        rt,
        around: &around,
    };
    let mut clock = clock_of(rt, state, Files::new(rt, names));
    let mut writer = TabWriter::new(alloc, Watched::new(io::writer(rt)));
    let mut told = Printer {
        out: Watched::new(rt.stderr()),
    };
    let orders = RunOrders {
        most: u64::MAX,
        ends: names.iter().all(|name| *name == "-"),
        ..*orders
    };
    let ended = follow(
        alloc,
        &orders,
        opened.time_zone(),
        &opener,
        noted,
        &mut clock,
        &mut writer,
        &mut told,
    );
    let path = state.map_or("", |state| state.path.as_str());
    Ok(end_of(rt, ended, path))
}
