//! Runs back over the fires of a set of civil seconds, the last one first.
ghost use Rattle.std.specs.Prelude.{◌≡◌};
ghost use Rattle.std.specs.Iterator.{YieldsFirst};
ghost use Rattle.cron_seconds.specs.Rules.{IsFirstOf, all_back, all_before};
ghost use Rattle.cron_seconds.specs.Runs.{left_back};

use crate::civil_seconds::CivilSeconds;
use crate::rule::Rule;
use jiff::Timestamp;
use std::marker::Model;

/// The bound of the fires that are left: at or before an instant, or before a fire.
#[derive(Clone, Copy)]
pub(crate) enum Place<F> {
    By(Timestamp),
    Before(F),
}

/// Some of the fires of a set of civil seconds by a rule, the last one first. Each comes once, and
/// none is left out. Contracts see the list of the fires that are left. A run takes no memory.
#[derive(Drop)]
pub struct BackRun<'a, S: CivilSeconds, R: Rule> {
    set: S,
    clock: &'a R::Clock,
    place: Place<R::Fire>,
}

impl<'a, S: CivilSeconds, R: Rule> Model for BackRun<'a, S, R> {
    ghost use Rattle.std.specs.Prelude.{List};
    ghost use Rattle.cron_seconds.specs.Runs.{left_back};

    ghost Value = { List R.Fire };

    ghost view = { λ r. left_back R.at R.is_past (R.fires (S.has r.set) r.clock.now) r.place };
}

// The last fire that `place` leaves: at or before its instant, or before its fire. `None` if there
// is none.
fn last_from<S: CivilSeconds, R: Rule>(
    set: &S,
    place: &Place<R::Fire>,
    clock: &R::Clock,
) -> Option<R::Fire>
    ensures { IsFirstOf
        (left_back R.at R.is_past (R.fires (S.has set.now) clock.now) place.now)
        (all_before R.is_past (R.fires (S.has set.now) clock.now)) result }
{
    match place {
        Place::By(until) => R::last_by(set, *until, clock),
        Place::Before(fire) => R::last_before(set, fire, clock),
    }
}

impl<'a, S: CivilSeconds, R: Rule> BackRun<'a, S, R> {
    /// The fires whose instant is at or before `until`, the last one first.
    pub fn by(set: S, until: Timestamp, clock: &'a R::Clock) -> BackRun<'a, S, R>
        ensures { result ≡ all_back R.at (R.fires (S.has set) clock.now) until.nanosecond }
    {
        BackRun {
            set,
            clock,
            place: Place::By(until),
        }
    }

    // Removes the last fire that is left and returns it. `None` if none is left.
    fn take_last(&mut self) -> Option<R::Fire>
        ensures { YieldsFirst (λ rest. rest) self.old result self.new }
    {
        let Some(fire) = last_from::<S, R>(&self.set, &self.place, self.clock) else {
            return None;
        };
        self.place = Place::Before(fire);
        Some(fire)
    }
}

impl<'a, S: CivilSeconds, R: Rule> Iterator for BackRun<'a, S, R> {
    type Item = R::Fire;

    ghost use Rattle.std.specs.Iterator.{YieldsFirst, item_count};

    ghost next_gives = { YieldsFirst (λ rest. rest) };

    ghost remaining = { item_count (λ rest. rest) };

    fn next(&mut self) -> Option<R::Fire> {
        self.take_last()
    }
}
