//! Runs crontabs, and notes how far the run has come.

ghost use Rattle.std.specs.Prelude.{◌≡◌, ⊤, Result, map};
ghost use Rattle.std.specs.declared.io.Error.{Error};
ghost use Rattle.jiff.specs.Words.{plain_zone};
ghost use Rattle.cron_printing.specs.Printing.{writer_calls};
ghost use Rattle.cron_scheduler.specs.Runs.{clock_calls};
ghost use Rattle.cron_tab_running.specs.Clocks.{NotesOnce, RunsNoted, Shows, TakesEntries, Waits, noted_end};
ghost use Rattle.cron_tab_running.specs.Noted.{noted_view};
ghost use Rattle.cron_tab_running.specs.Running.{RunsFiles};

use crate::failure::Failure;
use crate::files::run_files;
use crate::noted::Noted;
use crate::orders::{RunOrders, TabFile};
use crate::run_clock::{Changing, Interruption, RunClock};
use crate::writer::TabWriter;
use cron_agenda_scheduler::AgendaStop;
use cron_notes::store::Store;
use cron_printing::printer::Printer;
use cron_scheduler::AlarmClock;
use cron_writer::watchable::Watchable;
use jiff::Timestamp;
use jiff::tz::TimeZone;
use std::alloc::Global;

// Notes how far a run came that has ended.
fn note_end<C: AlarmClock, F: Changing, S: Store>(
    clock: &mut RunClock<'_, C, F, S>,
) -> Result<(), Failure<Interruption<C::Error>>>
    ensures { (noted : Result ⊤ Error) × NotesOnce S.does clock.old noted clock.new
        × (result ≡ noted_end noted) }
{
    match clock.note() {
        Ok(()) => Ok(()),
        Err(error) => Err(Failure::Stopped(AgendaStop::Clock(Interruption::Unnoted(error)))),
    }
}

/// Runs crontabs as `run_files` does, by a clock that notes before each wait how far the run has
/// come. It also writes a note at the end, when no entry fires any more. The number of runs isn't
/// limited: a limit might end the run between fires that are due together, and that can't be noted.
pub fn run_noted<C: AlarmClock, F: Changing, S: Store, W: Watchable, E: Watchable>(
    alloc: Global,
    orders: &RunOrders<'_>,
    files: &[TabFile<'_>],
    zones: &[TimeZone<'_>],
    noted: &Noted,
    since: Option<Timestamp>,
    clock: &mut RunClock<'_, C, F, S>,
    writer: &mut TabWriter<W>,
    complaints: &mut Printer<E>,
) -> Result<(), Failure<Interruption<C::Error>>>
    requires { orders.now.most ≡ 18_446_744_073_709_551_615 }
    ensures { RunsNoted (RunsFiles
        (clock_calls (Shows C.shows) (Waits C.shows C.waits F.changes S.does)) TakesEntries
        (writer_calls W.writes W.flushes W.contents) (writer_calls E.writes E.flushes E.contents)
        orders.now files.now (map plain_zone zones.now) (noted_view noted.now) since) S.does
        (clock.old, writer.old, complaints.old) result (clock.new, writer.new, complaints.new) }
{
    match run_files(
        alloc, orders, files, zones, noted, since, clock, writer, complaints,
    ) {
        Ok(()) => note_end(clock),
        Err(failure) => Err(failure),
    }
}
