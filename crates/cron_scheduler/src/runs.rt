//! Runs the job for the fires of a plan, as the clock goes.

ghost use Rattle.std.specs.Prelude.{◌≡◌};
ghost use Rattle.cron_scheduler.specs.Plans.{fires_of};
ghost use Rattle.cron_scheduler.specs.Runs.{IsRun, clock_calls};
ghost use Rattle.cron_scheduler.specs.Passing.{IsFirstLeft, RunsDue, left_of};

use crate::clock::{AlarmClock, wake_at};
use crate::job::Job;
use crate::plan::{Plan, Rest};
use crate::stop::Stop;
use cron_fires::{CivilSeconds, Fire};
use jiff::Timestamp;

// Runs the job for each fire that is due at `now`, and removes these fires from `rest`. If the job
// fails for a fire, it ends with the job's error, and that fire isn't removed.
fn run_due<T: CivilSeconds, F: Fire, J: Job<F>>(
    plan: &Plan<'_, T, F>,
    rest: &mut Rest<F>,
    now: Timestamp,
    job: &mut J,
) -> Result<(), J::Error>
    requires can { J.can_run job.old }
    requires next { IsFirstLeft T.has F.after F.past plan.now rest.old rest.old.next }
    ensures due { RunsDue F.at J.runs now.nanosecond
        (left_of T.has F.after F.past plan.now rest.old, job.old)
        result
        (left_of T.has F.after F.past plan.now rest.new, job.new) }
    ensures stays { J.can_run job.new }
    ensures next { IsFirstLeft T.has F.after F.past plan.now rest.new rest.new.next }
{
    while let Some(fire) = plan.first_due(rest, now) {
        job.run(fire)?;
        *rest = plan.behind(rest, fire);
    }
    Ok(())
}

impl<T: CivilSeconds, F: Fire> Plan<'_, T, F> {
    /// Runs the job for the fires of the plan, each once, in order, and none before its instant. It
    /// waits for the next fire, reads the clock, runs all that is due then, and repeats. The job
    /// must allow calls (`can_run`), as a closure without a condition of its own does. If the clock
    /// goes back, nothing is run again: a fire that was run is gone for good, and the next fire
    /// waits.
    ///
    /// It ends when all fires were run, or when the clock or the job fails. If the clock fails,
    /// everything due at the greatest time that it showed was run. Else it goes on for as long as
    /// the table fires, up to 2^64 - 1 readings of the clock.
    pub fn run<C: AlarmClock, J: Job<F>>(
        &self,
        clock: &mut C,
        job: &mut J,
    ) -> Result<(), Stop<C::Error, J::Error>>
        requires { J.can_run job.old }
        ensures run { IsRun (clock_calls C.shows C.waits) J.runs F.at
            (fires_of T.has F.after F.past self.now)
            (clock.old, job.old)
            result
            (clock.new, job.new) }
        ensures stays { J.can_run job.new }
    {
        let mut rest = Rest {
            start: self.start,
            most: self.most,
            next: self.first(self.start, self.most),
        };
        for _ in 0..u64::MAX {
            let Some(fire) = rest.next else {
                return Ok(());
            };
            let now = match wake_at(clock, fire.instant()) {
                Ok(now) => now,
                Err(error) => return Err(Stop::Clock(error)),
            };
            if let Err(error) = run_due(self, &mut rest, now, job) {
                return Err(Stop::Job(error));
            }
        }
        Ok(())
    }
}
