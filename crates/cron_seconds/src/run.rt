//! Runs over the fires of a set of civil seconds, in order.
ghost use Rattle.std.specs.Prelude.{◌≡◌};
ghost use Rattle.std.specs.Iterator.{YieldsFirst};
ghost use Rattle.cron_seconds.specs.Rules.{all_after, all_between, all_past, all_past_by};
ghost use Rattle.cron_seconds.specs.Runs as runs;

use crate::civil_seconds::CivilSeconds;
use crate::rule::Rule;
use jiff::Timestamp;
use std::marker::Model;

/// Returns true if `until` is `None` or `instant` is at or before it. Both are in seconds since
/// 1970-01-01T00:00:00Z.
#[inline(always)]
pub fn is_within(until: Option<i64>, instant: i64) -> bool
    ensures { result ≡ runs.is_within until instant }
{
    match until {
        Some(last) => instant <= last,
        None => true,
    }
}

/// Some of the fires of a set of civil seconds by a rule, in order. Each comes once, and none is
/// left out. Contracts see the list of the fires that are left. A run takes no memory, and after
/// `None` it returns only `None`.
#[derive(Drop)]
pub struct Run<'a, S: CivilSeconds, R: Rule> {
    set: S,
    clock: &'a R::Clock,
    stand: R::Stand,
    cursor: S::Cursor,
    until: Option<i64>,
}

impl<'a, S: CivilSeconds, R: Rule> Model for Run<'a, S, R> {
    ghost use Rattle.std.specs.Prelude.{List};
    ghost use Rattle.cron_seconds.specs.Runs.{up_to};

    ghost Value = { List R.Fire };

    ghost view = { λ r. up_to R.at r.until (R.left (S.has r.set) r.clock.now r.stand) };

    ghost invariant = { λ r. R.stands (S.has r.set) r.clock.now r.stand × S.knows r.set r.cursor };
}

impl<'a, S: CivilSeconds, R: Rule> Run<'a, S, R> {
    /// The fires after `start`. A fire at `start` itself isn't among them.
    ///
    /// ```text
    /// for fire in Fires::after(&schedule, now, &zone).take(10) { .. }
    /// ```
    pub fn after(set: S, start: Timestamp, clock: &'a R::Clock) -> Run<'a, S, R>
        ensures { result ≡ all_after R.at (R.fires (S.has set) clock.now) start.nanosecond }
    {
        Run {
            set,
            clock,
            stand: R::stand_after(start, clock),
            cursor: S::begin(),
            until: None,
        }
    }

    /// The fires past `fire`. This continues a run that was cut after `fire`. `fire` needn't be a
    /// fire of the set.
    pub fn past(set: S, fire: &R::Fire, clock: &'a R::Clock) -> Run<'a, S, R>
        ensures { result ≡ all_past R.is_past (R.fires (S.has set) clock.now) fire.now }
    {
        let stand = R::stand_past(fire, clock);
        Run {
            set,
            clock,
            stand,
            cursor: S::begin(),
            until: None,
        }
    }

    /// The fires after `last` and at or before `now`. There are none if `now` isn't later than
    /// `last`.
    pub fn between(set: S, last: Timestamp, now: Timestamp, clock: &'a R::Clock) -> Run<'a, S, R>
        ensures { result
            ≡ all_between R.at (R.fires (S.has set) clock.now) last.nanosecond now.nanosecond }
    {
        Run {
            set,
            clock,
            stand: R::stand_after(last, clock),
            cursor: S::begin(),
            until: Some(now.to_plain().floor_second()),
        }
    }

    /// The fires past `fire` and at or before `now`: the fires missed since `fire`, the last one
    /// that was noted.
    pub fn past_by(set: S, fire: &R::Fire, now: Timestamp, clock: &'a R::Clock) -> Run<'a, S, R>
        ensures { result
            ≡ all_past_by R.at R.is_past (R.fires (S.has set) clock.now) fire.now now.nanosecond }
    {
        let until = now.to_plain().floor_second();
        Run {
            set,
            clock,
            stand: R::stand_past(fire, clock),
            cursor: S::begin(),
            until: Some(until),
        }
    }

    // Removes the first fire that is left and returns it. `None` if none is left, or if it comes
    // after `until`, which ends the run.
    #[inline(always)]
    fn take_first(&mut self) -> Option<R::Fire>
        ensures { YieldsFirst (λ rest. rest) self.old result self.new }
    {
        R::in_order();
        let Some(fire) = R::next(&self.set, self.clock, &mut self.stand, &mut self.cursor) else {
            return None;
        };
        if !is_within(self.until, R::instant_of(&fire)) {
            self.stand = R::stand_at_the_end(self.clock);
            return None;
        }
        Some(fire)
    }
}

impl<'a, S: CivilSeconds, R: Rule> Iterator for Run<'a, S, R> {
    type Item = R::Fire;

    ghost use Rattle.std.specs.Iterator.{YieldsFirst, item_count};

    ghost next_gives = { YieldsFirst (λ rest. rest) };

    ghost remaining = { item_count (λ rest. rest) };

    // A program with several callers has this code once per caller, since a call would cost a run a
    // third of its time.
    #[inline(always)]
    fn next(&mut self) -> Option<R::Fire> {
        self.take_first()
    }
}
