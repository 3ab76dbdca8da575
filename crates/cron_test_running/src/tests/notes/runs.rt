//! One run of a crontab, by a clock and a store in memory.

use super::shelf::{PATH, Shelf};
use super::table::Tab;
use super::waking::{Fault, Unchanged, Waking};
use cron_agenda_scheduler::Lateness;
use cron_printing::printer::Printer;
use cron_tab_agenda::Clock;
use cron_tab_lines::Crontab;
use cron_tab_running::{
    Failure, Interruption, Notebook, Noted, RunClock, RunOrders, TabFile, TabWriter, run_noted,
};
use cron_tab_tasks::{Form, Orders};
use cron_writer::watched::Watched;
use jiff::Timestamp;
use jiff::tz::TimeZone;
use std::process::Abort;

const ORDERS: RunOrders<'static> = RunOrders {
    tasks: Orders {
        kind: Crontab::User,
        form: Form::Command,
        user: None,
        names: &[],
    },
    clock: Clock::Own,
    lateness: Lateness::Each,
    reboot: false,
    most: u64::MAX,
    ends: true,
};

/// The outcome of a run: its answer, what it wrote, and its clock and store afterwards.
#[derive(Drop)]
pub(super) struct Ran<'a> {
    pub(super) answer: Result<(), Failure<Interruption<Fault>>>,
    pub(super) written: Vec<u8>,
    /// The second since 1970 that its clock shows after the run.
    pub(super) second: i64,
    pub(super) shelf: Shelf<'a>,
}

/// Runs a crontab after what is noted, and writes its notes to the store `shelf`.
pub(super) fn run<'a>(
    rt: &(impl Abort + AllocGlobal),
    tab: &Tab,
    noted: &Noted,
    clock: Waking<'a>,
    shelf: Shelf<'a>,
) -> Ran<'a> {
    let alloc = rt.alloc();
    let mut clock = RunClock {
        alloc,
        clock,
        files: Unchanged,
        notebook: Some(Notebook {
            store: shelf,
            path: PATH,
        }),
        noted: Noted::nothing(alloc),
        until: None,
        seen: Timestamp::MIN,
    };
    let files = [TabFile {
        name: "tab",
        bytes: tab.text.as_bytes(),
    }];
    let mut writer = TabWriter::new(alloc, Watched::new(Vec::new(alloc)));
    let mut complaints = Printer {
        out: Watched::new(Vec::new(alloc)),
    };
    let answer = run_noted(
        alloc,
        &ORDERS,
        &files,
        &[TimeZone::UTC],
        noted,
        None,
        &mut clock,
        &mut writer,
        &mut complaints,
    );
    let TabWriter { printer, .. } = writer;
    let RunClock {
        clock,
        notebook,
        ..
    } = clock;
    Ran {
        answer,
        written: printer.out.into_inner(),
        second: clock.second,
        shelf: notebook.expect(rt, "a notebook").store,
    }
}
