//! The loop over an agenda.

ghost use Rattle.std.specs.Prelude.{map};
ghost use Rattle.jiff.specs.Words.{plain_zone};
ghost use Rattle.cron_scheduler.specs.Runs.{clock_calls};
ghost use Rattle.cron_agenda_scheduler.specs.Late.{tables};
ghost use Rattle.cron_agenda_scheduler.specs.Turns.{RunsLoop, Steps, job_calls};

use crate::job::AgendaJob;
use crate::lateness::HasLateness;
use crate::stop::AgendaStop;
use crate::turns::turn;
use cron_agenda::Agenda;
use cron_fires::CivilSeconds;
use cron_scheduler::AlarmClock;
use jiff::tz::TimeZone;

/// Waits until the instant of the next fire, reads the clock once, and takes all fires due then,
/// one after another. Each is the first due fire of the agenda at that point: an entry that the job
/// removed fires no more, and one that it added may. The job is run for the fire, or the fire is
/// passed over, by its entry's lateness. Returns false if there was no entry, and then does
/// nothing.
///
/// An error ends the step. If the job failed, its fire was taken. If the clock wakes early, as
/// `MachineClock` does after a minute, it may take no fire. A step takes up to 2^64 - 1 fires.
pub fn step<T: CivilSeconds + HasLateness + Copy, C: AlarmClock, J: AgendaJob<T>>(
    agenda: &mut Agenda<T>,
    zones: &[TimeZone<'_>],
    clock: &mut C,
    job: &mut J,
) -> Result<bool, AgendaStop<C::Error, J::Error>>
    ensures { Steps (tables T.has T.lateness (map plain_zone zones.now))
        (clock_calls C.shows C.waits) (job_calls J.runs J.passes)
        clock.old agenda.old job.old result clock.new agenda.new job.new }
{
    match turn(agenda, zones, clock, job, u64::MAX) {
        Ok(left) => Ok(left.is_some()),
        Err(stop) => Err(stop),
    }
}

/// Takes steps until no entry is left or the job was run `most` times. Fires that are passed over
/// aren't counted. An error ends it, and the caller may call it again. A job that notes its
/// failures and returns `Ok` doesn't end it. It takes up to 2^64 - 1 turns; with `u64::MAX` as
/// `most` it runs on for as long as that.
pub fn run<T: CivilSeconds + HasLateness + Copy, C: AlarmClock, J: AgendaJob<T>>(
    agenda: &mut Agenda<T>,
    zones: &[TimeZone<'_>],
    clock: &mut C,
    job: &mut J,
    most: u64,
) -> Result<(), AgendaStop<C::Error, J::Error>>
    ensures { RunsLoop (tables T.has T.lateness (map plain_zone zones.now))
        (clock_calls C.shows C.waits) (job_calls J.runs J.passes) most
        clock.old agenda.old job.old result clock.new agenda.new job.new }
{
    let mut left = most;
    for _ in 0..u64::MAX {
        if left == 0 {
            return Ok(());
        }
        let turned = match turn(agenda, zones, clock, job, left) {
            Ok(turned) => turned,
            Err(stop) => return Err(stop),
        };
        let Some(rest) = turned else {
            return Ok(());
        };
        left = rest;
    }
    Ok(())
}
