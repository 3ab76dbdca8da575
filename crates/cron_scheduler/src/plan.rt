//! Plans: which fires are to be run.

ghost use Rattle.std.specs.Prelude.{◌≡◌, ◌-◌};
ghost use Rattle.std.specs.Option.{option_map};
ghost use Rattle.jiff.specs.Words.{plain_zone};
ghost use Rattle.cron_scheduler.specs.Passing.{IsFirst, IsFirstDueLeft, IsFirstLeft};
ghost use Rattle.cron_scheduler.specs.declared.plan.Start.TheVariants.{Past};

use cron_fires::{CivilSeconds, Fire};
use jiff::Timestamp;
use jiff::tz::TimeZone;

/// Where a run begins.
#[derive(Clone, Copy, Debug, PartialEq, Eq)]
pub enum Start<F> {
    /// After an instant: the fires with a later instant.
    After(Timestamp),
    /// Past a fire, such as the last one that was noted: the fires that follow it.
    Past(F),
}

/// Which fires are to be run: all fires of `table` in `zone` from `start` on, or the first `most`.
/// The type that the job takes is the rule: a `Moment` for each time that the clock shows a match,
/// or a `DueFire` for each match.
#[derive(Clone, Copy)]
pub struct Plan<'a, T, F> {
    /// What fires: a schedule, or several as one.
    pub table: &'a T,
    /// The zone whose clock counts.
    pub zone: &'a TimeZone<'a>,
    /// Where the fires begin.
    pub start: Start<F>,
    /// How many fires at most; `None` for all of them.
    pub most: Option<u64>,
}

/// What is left of a plan, and the first fire of it, or `None` if no fire is left.
#[derive(Clone, Copy)]
pub(crate) struct Rest<F> {
    pub(crate) start: Start<F>,
    pub(crate) most: Option<u64>,
    pub(crate) next: Option<F>,
}

impl<T: CivilSeconds, F: Fire> Plan<'_, T, F> {
    // The first fire from `start` on. `None` if there is none, or if `most` is 0.
    pub(crate) fn first(&self, start: Start<F>, most: Option<u64>) -> Option<F>
        ensures { IsFirst F.after F.past (T.has self.now.table.now) (plain_zone self.now.zone.now)
            start most result }
    {
        if most == Some(0) {
            return None;
        }
        match start {
            Start::After(now) => F::first_after(self.table, now, self.zone),
            Start::Past(fire) => F::first_past(self.table, &fire, self.zone),
        }
    }

    // The first fire that is left, if its instant is at or before `now`, and else `None`.
    pub(crate) fn first_due(&self, rest: &Rest<F>, now: Timestamp) -> Option<F>
        requires { IsFirstLeft T.has F.after F.past self.now rest.now rest.now.next }
        ensures { IsFirstDueLeft F.at T.has F.after F.past self.now rest.now now.nanosecond result }
    {
        let Some(first) = rest.next else {
            return None;
        };
        F::never_decrease();
        if first.instant() > now {
            return None;
        }
        Some(first)
    }

    // What is left after `first`, with the fire that comes next. Each fire is searched for once.
    pub(crate) fn behind(&self, rest: &Rest<F>, first: F) -> Rest<F>
        ensures start { result.start ≡ Past first }
        ensures most { result.most ≡ option_map (λ n. n - 1) rest.now.most }
        ensures next { IsFirstLeft T.has F.after F.past self.now result result.next }
    {
        let start = Start::Past(first);
        let most = rest.most.map(|most| most.saturating_sub(1));
        let next = self.first(start, most);
        Rest { start, most, next }
    }
}
