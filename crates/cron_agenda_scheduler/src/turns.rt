//! One turn of the loop: wait, read the clock, and run what is due then.

ghost use Rattle.std.specs.Prelude.{List, map};
ghost use Rattle.jiff.specs.Words.{plain_zone};
ghost use Rattle.cron_scheduler.specs.Runs.{clock_calls};
ghost use Rattle.cron_agenda_scheduler.specs.Late.{tables};
ghost use Rattle.cron_agenda_scheduler.specs.Turns.{Deed, RunsDue, Turns, job_calls};

use crate::job::AgendaJob;
use crate::lateness::HasLateness;
use crate::picks::take_due;
use crate::stop::AgendaStop;
use cron_agenda::Agenda;
use cron_fires::CivilSeconds;
use cron_scheduler::{AlarmClock, wake_at};
use jiff::Timestamp;
use jiff::tz::TimeZone;

// Takes the fires due at `now`, one after another, each the first of the agenda at that point, and
// runs the job for it or passes it over. It returns how many of `most` runs are left.
fn run_due<T: CivilSeconds + HasLateness + Copy, C: AlarmClock, J: AgendaJob<T>>(
    agenda: &mut Agenda<T>,
    zones: &[TimeZone<'_>],
    now: Timestamp,
    job: &mut J,
    most: u64,
) -> Result<u64, AgendaStop<C::Error, J::Error>>
    ensures { (deeds : List Deed)
        × RunsDue (tables T.has T.lateness (map plain_zone zones.now))
        (job_calls J.runs J.passes)
        now.nanosecond most deeds agenda.old job.old result agenda.new job.new }
{
    let mut left = most;
    for _ in 0..u64::MAX {
        if left == 0 {
            return Ok(0);
        }
        let picked = match take_due(agenda, zones, now) {
            Ok(picked) => picked,
            Err(missing) => return Err(AgendaStop::Zone(missing)),
        };
        let Some(pick) = picked else {
            return Ok(left);
        };
        if pick.is_run {
            if let Err(error) = job.run(pick.due, agenda) {
                return Err(AgendaStop::Job(error));
            }
            left -= 1;
        } else {
            job.pass_over(pick.due);
        }
    }
    Ok(left)
}

/// Waits for the next fire, reads the clock, and runs what is due then. It returns how many of
/// `most` runs are left, or `None` if there is no entry.
pub(crate) fn turn<T: CivilSeconds + HasLateness + Copy, C: AlarmClock, J: AgendaJob<T>>(
    agenda: &mut Agenda<T>,
    zones: &[TimeZone<'_>],
    clock: &mut C,
    job: &mut J,
    most: u64,
) -> Result<Option<u64>, AgendaStop<C::Error, J::Error>>
    ensures { (deeds : List Deed)
        × Turns (tables T.has T.lateness (map plain_zone zones.now))
        (clock_calls C.shows C.waits)
        (job_calls J.runs J.passes) most deeds
        clock.old agenda.old job.old result clock.new agenda.new job.new }
{
    let Some(first) = agenda.first() else {
        return Ok(None);
    };
    let now = match wake_at(clock, first.fire.timestamp()) {
        Ok(now) => now,
        Err(error) => return Err(AgendaStop::Clock(error)),
    };
    match run_due::<T, C, J>(agenda, zones, now, job, most) {
        Ok(left) => Ok(Some(left)),
        Err(stop) => Err(stop),
    }
}
