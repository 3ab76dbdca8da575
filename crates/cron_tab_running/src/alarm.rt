//! Writes a line at each fire of one expression.

ghost use Rattle.std.specs.Prelude.{◌≡◌};
ghost use Rattle.jiff.specs.Words.{plain_zone};
ghost use Rattle.cron_printing.specs.Printing.{writer_calls};
ghost use Rattle.cron_scheduler.specs.Runs.{clock_calls};
ghost use Rattle.cron_tab_running.specs.Alarms.{RingsAt};

use crate::failure::{Failure, outcome_of};
use cron_agenda::{AddError, Agenda, AgendaFire, EntryFire};
use cron_agenda_scheduler::{AgendaJob, AgendaStop, run};
use cron_fires::{CivilSeconds, ClockChanges, Union};
use cron_printing::lined::Lined;
use cron_printing::printer::{Printer, WriteFailed};
use cron_scheduler::AlarmClock;
use cron_units::fields::ScheduleFields;
use cron_writer::watchable::Watchable;
use jiff::tz::TimeZone;
use std::alloc::Global;

/// A job that writes a line for each fire, and flushes.
#[derive(Drop)]
pub struct FireWriter<W> {
    /// Where the lines go.
    pub printer: Printer<W>,
}

impl<T: CivilSeconds, W: Watchable> AgendaJob<T> for FireWriter<W> {
    type Error = WriteFailed;

    ghost use Rattle.cron_printing.specs.Printing.{writer_calls};
    ghost use Rattle.cron_tab_running.specs.Alarms.{WritesFire};

    ghost runs = { WritesFire (writer_calls W.writes W.flushes W.contents) };

    ghost passes = { λ old _ new. new ≡ old };

    fn run(&mut self, due: AgendaFire, _agenda: &mut Agenda<T>) -> Result<(), WriteFailed> {
        match &due.fire {
            EntryFire::AsShown(moment) => self.printer.print(moment.line().as_slice()),
            EntryFire::Once(fire) => self.printer.print(fire.line().as_slice()),
        }
    }

    fn pass_over(&mut self, _due: AgendaFire) {}
}

/// An alarm: schedules, a rule at clock changes, and a zone. A fire must match one of the
/// schedules.
#[derive(Clone, Copy)]
pub struct Alarm<'a> {
    /// Without any schedule the alarm never rings.
    pub schedules: &'a [ScheduleFields],
    pub changes: ClockChanges,
    pub zone: TimeZone<'a>,
    /// How many times the alarm rings at most.
    pub most: u64,
}

/// Writes a line for each fire of the alarm once the clock has come to it, and flushes. The fires
/// begin after the time that the clock shows first. It ends when there is no further fire, after
/// `alarm.most` fires, or by a failure.
pub fn ring_at<C: AlarmClock, W: Watchable>(
    alloc: Global,
    alarm: &Alarm<'_>,
    clock: &mut C,
    writer: &mut FireWriter<W>,
) -> Result<(), Failure<C::Error>>
    ensures { RingsAt (clock_calls C.shows C.waits) (writer_calls W.writes W.flushes W.contents)
        alarm.now (clock.old, writer.old) result (clock.new, writer.new) }
{
    let now = match clock.now() {
        Ok(now) => now,
        Err(error) => return Err(Failure::Stopped(AgendaStop::Clock(error))),
    };
    let mut agenda = Agenda::new(alloc);
    let zones = [alarm.zone];
    let table = Union {
        schedules: alarm.schedules,
    };
    match agenda.add(table, alarm.changes, now, &zones, 0) {
        Ok(_) => outcome_of(run(&mut agenda, &zones, clock, writer, alarm.most)),
        Err(AddError::NoFires) => Ok(()),
        Err(_) => Err(Failure::OutOfMemory),
    }
}
