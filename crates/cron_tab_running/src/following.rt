//! Runs crontabs, and reads them again when they change. A look reads the clock and then the files,
//! or asks whether they have changed. A round is a look, the run of the entries found, and the
//! looks up to a change.

ghost use Rattle.std.specs.Prelude.{◌≡◌, ◌&&◌, not};
ghost use Rattle.cron_printing.specs.Printing.{writer_calls};
ghost use Rattle.cron_tab_running.specs.Following.{AfterRun, Follows, IsRound, going_on, round_calls, unless_changed, unless_told};
ghost use Rattle.cron_tab_running.specs.Looks.{Stays, TellsIdle, has_none};
ghost use Rattle.cron_tab_running.specs.Noted.{noted_view};

use crate::crontabs::{Crontabs, ZoneOpener};
use crate::failure::Failure;
use crate::looks::{FollowError, has_none, idle_until_change, let_go, look, run_found};
use crate::noted::Noted;
use crate::orders::RunOrders;
use crate::run_clock::{Changing, Interruption, RunClock};
use crate::writer::TabWriter;
use cron_agenda_scheduler::AgendaStop;
use cron_notes::store::Store;
use cron_printing::printer::Printer;
use cron_scheduler::AlarmClock;
use cron_writer::watchable::Watchable;
use jiff::Timestamp;
use jiff::tz::TimeZone;
use std::alloc::Global;

/// What is left of a round, a look at the files and the run of what it found, when the files
/// change.
#[derive(Drop)]
pub(crate) struct Left {
    /// How far its run came, and the entries that were run.
    pub(crate) noted: Noted,
    /// True if no entry fired any more, and then a look found the files unchanged before another
    /// found the change.
    pub(crate) stayed: bool,
}

// The entries that go on at the next look, with the instant after which they fire. Usually they are
// `noted`, the entries found at this look. If this look found none, the look before it did
// (`before`), and the files didn't stay unchanged (`stayed`), they are `on`, the entries that went
// on before.
fn going_on(on: Noted, noted: Noted, before: bool, stayed: bool) -> Noted
    ensures { noted_view result
        ≡ going_on (noted_view on) (noted_view noted) (before && not stayed) }
{
    if before && !stayed && has_none(&noted) {
        on
    } else {
        noted
    }
}

// `None` if the files have changed, and else the reason why a clock ended a run.
fn unless_told<E>(why: Interruption<E>) -> Option<Interruption<E>>
    ensures { result ≡ unless_told why }
{
    match why {
        Interruption::Changed => None,
        Interruption::Clock(error) => Some(Interruption::Clock(error)),
        Interruption::Unnoted(error) => Some(Interruption::Unnoted(error)),
    }
}

// `None` if a run ended because the files have changed, and else the reason why it ended early.
fn unless_changed<E>(why: Failure<Interruption<E>>) -> Option<Failure<Interruption<E>>>
    ensures { result ≡ unless_changed why }
{
    match why {
        Failure::Stopped(AgendaStop::Clock(why)) => match unless_told(why) {
            Some(why) => Some(Failure::Stopped(AgendaStop::Clock(why))),
            None => None,
        },
        Failure::Stopped(AgendaStop::Zone(why)) => Some(Failure::Stopped(AgendaStop::Zone(why))),
        Failure::Stopped(AgendaStop::Job(why)) => Some(Failure::Stopped(AgendaStop::Job(why))),
        Failure::OutOfMemory => Some(Failure::OutOfMemory),
        Failure::NoZone(zone) => Some(Failure::NoZone(zone)),
        Failure::NoIds => Some(Failure::NoIds),
        Failure::Untold => Some(Failure::Untold),
    }
}

// Waits for a change of the files if the run ended because no entry fires any more. Returns true if
// a look found them unchanged before another found the change, and false if the run itself ended by
// a change. If `ends`, it doesn't wait, and returns `None`.
fn after_run<C: AlarmClock, F: Changing, S: Store, W: Watchable, D>(
    ends: bool,
    ran: Result<(), Failure<Interruption<C::Error>>>,
    clock: &mut RunClock<'_, C, F, S>,
    complaints: &mut Printer<W>,
) -> Result<Option<bool>, FollowError<C::Error, D>>
    ensures { AfterRun (TellsIdle (writer_calls W.writes W.flushes W.contents)
        (Stays C.shows C.waits F.changes)) ends ran
        (clock.old, complaints.old) result (clock.new, complaints.new) }
{
    match ran {
        Ok(()) if ends => Ok(None),
        Ok(()) => match idle_until_change(clock, complaints) {
            Ok(stayed) => Ok(Some(stayed)),
            Err(why) => Err(why),
        },
        Err(why) => match unless_changed(why) {
            Some(why) => Err(FollowError::Run(why)),
            None => Ok(Some(false)),
        },
    }
}

// The orders of a round: entries of `@reboot` are run only in the first round.
fn orders_at<'x>(orders: &RunOrders<'x>, is_first: bool) -> RunOrders<'x>
    ensures { result ≡ record orders.now { reboot = orders.now.reboot && is_first } }
{
    let reboot = orders.reboot && is_first;
    RunOrders { reboot, ..*orders }
}

// Reads the files and runs their entries. If no entry fires any more, it waits until the files
// change. Returns what is left when they change, or `None` if no entry fires any more and the
// orders say that this ends it.
fn run_round<O: ZoneOpener, C: AlarmClock, F: Crontabs, S: Store, W: Watchable, E: Watchable>(
    alloc: Global,
    orders: &RunOrders<'_>,
    zone: TimeZone<'_>,
    opener: &O,
    is_first: bool,
    on: &Noted,
    since: Option<Timestamp>,
    clock: &mut RunClock<'_, C, F, S>,
    writer: &mut TabWriter<W>,
    complaints: &mut Printer<E>,
) -> Result<Option<Left>, FollowError<C::Error, F::Error>>
    requires { orders.now.most ≡ 18_446_744_073_709_551_615 }
    ensures { IsRound (round_calls C.shows C.waits F.changes F.finds S.does
        (writer_calls W.writes W.flushes W.contents) (writer_calls E.writes E.flushes E.contents)
        orders.now) is_first (noted_view on.now) since
        (clock.old, writer.old, complaints.old) result (clock.new, writer.new, complaints.new) }
{
    let tabs = match look(clock) {
        Ok(tabs) => tabs,
        Err(why) => return Err(why),
    };
    let here = orders_at(orders, is_first);
    let ran = run_found(
        alloc,
        &here,
        zone,
        opener,
        tabs.as_slice(),
        on,
        since,
        clock,
        writer,
        complaints,
    );
    match after_run(orders.ends, ran, clock, complaints) {
        Ok(Some(stayed)) => Ok(Some(Left {
            noted: let_go(alloc, clock),
            stayed,
        })),
        Ok(None) => Ok(None),
        Err(why) => Err(why),
    }
}

/// Runs crontabs as `run_noted` does, and looks for changes each time that the clock wakes. When
/// they change, it goes on with their new content.
///
/// An entry goes on after the noted instant if it was in the crontabs at the look before. It also
/// does if that look found no entry at all, as while an editor writes a file, and the entry was
/// there at the look before that one. Every other entry is new: it fires after the look before, but
/// at most a minute back. Entries that are new at the start begin there. Entries of `@reboot` are
/// run only at the start. If no entry fires any more, it tells that once and looks each minute,
/// unless `orders.ends`: then it ends.
pub fn follow<O: ZoneOpener, C: AlarmClock, F: Crontabs, S: Store, W: Watchable, E: Watchable>(
    alloc: Global,
    orders: &RunOrders<'_>,
    zone: TimeZone<'_>,
    opener: &O,
    noted: Noted,
    clock: &mut RunClock<'_, C, F, S>,
    writer: &mut TabWriter<W>,
    complaints: &mut Printer<E>,
) -> Result<(), FollowError<C::Error, F::Error>>
    requires { orders.now.most ≡ 18_446_744_073_709_551_615 }
    ensures { Follows (round_calls C.shows C.waits F.changes F.finds S.does
        (writer_calls W.writes W.flushes W.contents) (writer_calls E.writes E.flushes E.contents)
        orders.now) (noted_view noted)
        (clock.old, writer.old, complaints.old) result (clock.new, writer.new, complaints.new) }
{
    let mut before = !has_none(&noted);
    let mut on = noted;
    let mut since: Option<Timestamp> = None;
    for rounds in 0..u64::MAX {
        let round = run_round(
            alloc,
            orders,
            zone,
            opener,
            rounds == 0,
            &on,
            since,
            clock,
            writer,
            complaints,
        );
        let Left { noted, stayed } = match round {
            Ok(Some(left)) => left,
            Ok(None) => return Ok(()),
            Err(why) => return Err(why),
        };
        let some = !has_none(&noted);
        on = going_on(on, noted, before, stayed);
        before = some;
        since = Some(clock.seen);
    }
    Ok(())
}
