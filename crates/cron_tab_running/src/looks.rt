//! Looks at crontabs: reads the clock and then the files, and runs the entries found.

ghost use Rattle.std.specs.Prelude.{◌≡◌, Bool, Some, map};
ghost use Rattle.jiff.specs.Words.{plain_zone};
ghost use Rattle.cron_printing.specs.Printing.{writer_calls};
ghost use Rattle.cron_scheduler.specs.Runs.{clock_calls};
ghost use Rattle.cron_tab_running.specs.Clocks.{Shows, Waits};
ghost use Rattle.cron_tab_running.specs.Looks.{Idles, LetsGo, Looks, RunsFound, RunsZoned, Stays, TellsIdle, has_none, idle_text, is_minute_behind, stopped};
ghost use Rattle.cron_tab_running.specs.Noted.{noted_view};

use crate::crontabs::{Crontabs, Tab, ZoneOpener, files_of, names_of, zones_of};
use crate::failure::Failure;
use crate::noted::{Noted, later};
use crate::noted_run::run_noted;
use crate::orders::{RunOrders, TabFile};
use crate::run_clock::{Changing, Interruption, RunClock};
use crate::writer::TabWriter;
use cron_agenda_scheduler::AgendaStop;
use cron_notes::store::Store;
use cron_printing::printer::Printer;
use cron_scheduler::AlarmClock;
use cron_tab_lines::NamedZone;
use cron_tab_tasks::Orders;
use cron_writer::watchable::Watchable;
use jiff::Timestamp;
use jiff::tz::TimeZone;
use std::alloc::Global;
use std::mem;

/// A minute, in nanoseconds.
const MINUTE: i128 = 60_000_000_000;

/// Why the crontabs are no longer followed.
#[derive(Debug, Drop)]
pub enum FollowError<E, D> {
    /// The crontabs couldn't be read.
    Files(D),
    /// A run of the crontabs ended early.
    Run(Failure<Interruption<E>>),
}

// The error of a run that its clock ended.
fn stopped<E, D>(stop: Interruption<E>) -> FollowError<E, D>
    ensures { result ≡ stopped stop }
{
    FollowError::Run(Failure::Stopped(AgendaStop::Clock(stop)))
}

/// Reads the clock, and then the crontabs. The time of this look is then in `clock.seen`.
pub(crate) fn look<C: AlarmClock, F: Crontabs, S: Store>(
    clock: &mut RunClock<'_, C, F, S>,
) -> Result<Vec<Tab>, FollowError<C::Error, F::Error>>
    ensures { Looks C.shows F.finds clock.old result clock.new }
{
    let now = match clock.clock.now() {
        Ok(now) => now,
        Err(error) => return Err(stopped(Interruption::Clock(error))),
    };
    clock.seen = later(clock.noted.until, now);
    match clock.files.read() {
        Ok(tabs) => Ok(tabs),
        Err(error) => Err(FollowError::Files(error)),
    }
}

// Runs crontabs in the zones `zones`, which `names` name.
fn run_zoned<C: AlarmClock, F: Changing, S: Store, W: Watchable, E: Watchable>(
    alloc: Global,
    orders: &RunOrders<'_>,
    names: &[NamedZone<'_>],
    zones: &[TimeZone<'_>],
    files: &[TabFile<'_>],
    noted: &Noted,
    since: Option<Timestamp>,
    clock: &mut RunClock<'_, C, F, S>,
    writer: &mut TabWriter<W>,
    complaints: &mut Printer<E>,
) -> Result<(), Failure<Interruption<C::Error>>>
    requires { orders.now.most ≡ 18_446_744_073_709_551_615 }
    ensures { RunsZoned (clock_calls (Shows C.shows) (Waits C.shows C.waits F.changes S.does))
        S.does (writer_calls W.writes W.flushes W.contents)
        (writer_calls E.writes E.flushes E.contents) orders.now names.now
        (map plain_zone zones.now) files.now (noted_view noted.now) since
        (clock.old, writer.old, complaints.old) result (clock.new, writer.new, complaints.new) }
{
    let tasks = Orders {
        names,
        ..orders.tasks
    };
    let orders = RunOrders { tasks, ..*orders };
    run_noted(
        alloc, &orders, files, zones, noted, since, clock, writer, complaints,
    )
}

/// Opens the zones that crontabs name, and runs the crontabs.
pub(crate) fn run_found<
    O: ZoneOpener,
    C: AlarmClock,
    F: Changing,
    S: Store,
    W: Watchable,
    E: Watchable,
>(
    alloc: Global,
    orders: &RunOrders<'_>,
    zone: TimeZone<'_>,
    opener: &O,
    tabs: &[Tab],
    noted: &Noted,
    since: Option<Timestamp>,
    clock: &mut RunClock<'_, C, F, S>,
    writer: &mut TabWriter<W>,
    complaints: &mut Printer<E>,
) -> Result<(), Failure<Interruption<C::Error>>>
    requires { orders.now.most ≡ 18_446_744_073_709_551_615 }
    ensures { RunsFound (clock_calls (Shows C.shows) (Waits C.shows C.waits F.changes S.does))
        S.does (writer_calls W.writes W.flushes W.contents)
        (writer_calls E.writes E.flushes E.contents) orders.now tabs.now (noted_view noted.now)
        since
        (clock.old, writer.old, complaints.old) result (clock.new, writer.new, complaints.new) }
{
    let Ok(opened) = opener.open(alloc, orders.tasks.kind, tabs) else {
        return Err(Failure::OutOfMemory);
    };
    let opened = opened.as_slice();
    let (Ok(names), Ok(zones), Ok(files)) = (
        names_of(alloc, opened),
        zones_of(alloc, zone, opened),
        files_of(alloc, tabs),
    ) else {
        return Err(Failure::OutOfMemory);
    };
    run_zoned(
        alloc,
        orders,
        names.as_slice(),
        zones.as_slice(),
        files.as_slice(),
        noted,
        since,
        clock,
        writer,
        complaints,
    )
}

// The instant a minute after `instant`, or `Timestamp::MAX` if that is earlier.
fn minute_behind(instant: Timestamp) -> Timestamp
    ensures { is_minute_behind instant result }
{
    Timestamp::from_nanosecond(instant.as_nanosecond() + MINUTE).unwrap_or(Timestamp::MAX)
}

// Waits until a minute after the last look, and checks whether the crontabs have changed. If so, it
// returns `Interruption::Changed`.
fn idle<C: AlarmClock, F: Changing, S: Store>(
    clock: &mut RunClock<'_, C, F, S>,
) -> Result<(), Interruption<C::Error>>
    ensures { Idles C.shows C.waits F.changes clock.old result clock.new }
{
    if let Err(error) = clock.clock.sleep_until(minute_behind(clock.seen)) {
        return Err(Interruption::Clock(error));
    }
    clock.glance()
}

// Looks each minute until the crontabs have changed. Returns true if a look found them unchanged
// before another found the change.
fn wait_for_change<C: AlarmClock, F: Changing, S: Store, D>(
    clock: &mut RunClock<'_, C, F, S>,
) -> Result<bool, FollowError<C::Error, D>>
    ensures { Stays C.shows C.waits F.changes clock.old result clock.new }
{
    for looks in 0..u64::MAX {
        match idle(clock) {
            Ok(()) => {}
            Err(Interruption::Changed) => return Ok(looks > 0),
            Err(stop) => return Err(stopped(stop)),
        }
    }
    Ok(true)
}

/// Returns true if no entry is noted.
pub(crate) fn has_none(noted: &Noted) -> bool
    ensures { result ≡ has_none (noted_view noted.now) }
{
    noted.entries.is_empty()
}

// The message that no entry fires any more, after a run of the entries of `noted`.
fn idle_text(noted: &Noted) -> &'static str
    ensures { result.now ≡ idle_text (noted_view noted.now) }
{
    if has_none(noted) {
        "no entries: waiting for a change\n"
    } else {
        "no fires are left: waiting for a change\n"
    }
}

/// Tells that no entry fires any more, and then waits until the crontabs change, as
/// `wait_for_change` does.
pub(crate) fn idle_until_change<C: AlarmClock, F: Changing, S: Store, W: Watchable, D>(
    clock: &mut RunClock<'_, C, F, S>,
    complaints: &mut Printer<W>,
) -> Result<bool, FollowError<C::Error, D>>
    ensures { TellsIdle (writer_calls W.writes W.flushes W.contents)
        (Stays C.shows C.waits F.changes)
        (clock.old, complaints.old) result (clock.new, complaints.new) }
{
    match complaints.print(idle_text(&clock.noted).as_bytes()) {
        Ok(()) => wait_for_change(clock),
        Err(_) => Err(FollowError::Run(Failure::Untold)),
    }
}

/// Takes the note of a run out of a clock, which keeps its instant but no entries.
pub(crate) fn let_go<C, F, S>(alloc: Global, clock: &mut RunClock<'_, C, F, S>) -> Noted
    ensures { LetsGo clock.old (noted_view result) clock.new }
{
    let nothing = Noted {
        until: clock.noted.until,
        entries: Vec::new(alloc),
    };
    mem::replace(&mut clock.noted, nothing)
}
