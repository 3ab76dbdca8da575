//! Merged schedules: each has its nearest match, and the least of these is the next match of all.
ghost use Rattle.std.specs.Prelude.{◌≡◌, ◌≤◌, ◌<◌, pos, ◌+ℤ◌, IfSome, length, take};
ghost use Rattle.cron_units.specs.Nearest.{IsNearest};
ghost use Rattle.cron_units.specs.declared.way.Way.TheVariants.{Ahead};
ghost use Rattle.cron_moments.specs.Civil.{seconds_in_range};
ghost use Rattle.cron_unions.specs.Inner.Merges.{Stands, StandsIn, schedules_of};
ghost use Rattle.cron_unions.specs.Nearest.{is_match_any};
ghost use Rattle.cron_unions.specs.Unions.{any_of};

use crate::apart::take_shared_out;
use crate::covering::needed;
use crate::heads::{Head, NO_MATCH, heads_of, pass_heads};
use arrayvec::ArrayVec;
use cron_units::fields::ScheduleFields;
use cron_units::time_unit::whole;

/// The greatest number of schedules that are merged. In a longer list each schedule is searched at
/// each fire.
pub(crate) const MERGED: usize = 12;

/// At most `MERGED` schedules, and the nearest match of each from `from` on. `from` is a civil
/// second, or is past the range.
#[derive(Drop)]
pub(crate) struct Merge {
    pub(crate) from: u32,
    // The merged schedules, one for each head, and then schedules that don't count.
    kept: [ScheduleFields; MERGED],
    heads: ArrayVec<Head, MERGED>,
}

// The schedule of every second, which fills the places after the merged schedules.
fn every_second() -> ScheduleFields {
    ScheduleFields {
        seconds: whole(),
        minutes: whole(),
        hours: whole(),
        days_of_month: whole(),
        months: whole(),
        days_of_week: whole(),
        years: whole(),
    }
}

// The given schedules, and after them schedules that don't count.
fn array_of(schedules: &[ScheduleFields]) -> [ScheduleFields; MERGED]
    requires { length schedules.now ≤ 12 }
    ensures { take (length schedules.now) result ≡ schedules.now }
{
    let mut all = [every_second(); MERGED];
    all[..schedules.len()].copy_from_slice(schedules);
    all
}

impl Merge {
    // Merges the given schedules from `second` on.
    fn of(schedules: &[ScheduleFields], second: u32) -> Merge
        requires { length schedules.now ≤ 12 }
        ensures { StandsIn schedules.now second result }
    {
        Merge {
            from: second,
            kept: array_of(schedules),
            heads: heads_of(schedules, i64::from(second)),
        }
    }

    /// Merges schedules with the same union as the given ones, from `second` on. If one of two
    /// covers the other, only that one is kept. Otherwise two are kept without the matches that
    /// they share, if one has all that the other one matches except for the set of one unit.
    #[inline(never)]
    pub(crate) fn from(schedules: &[ScheduleFields], second: u32) -> Merge
        requires { length schedules.now ≤ 12 }
        ensures same { StandsIn (schedules_of result) second result }
        ensures union { any_of (schedules_of result) ≡ any_of schedules.now }
    {
        match needed(schedules) {
            [one, other] => {
                let (one, other) = take_shared_out(one, other);
                Merge::of(&[one, other], second)
            }
            few => Merge::of(few, second),
        }
    }

    /// Moves `from` to the first match after it. Returns that match, or `None` if there is none.
    #[inline(always)]
    pub(crate) fn pass(&mut self) -> Option<u32>
        requires range { self.old.from < seconds_in_range }
        requires stands { Stands self.old }
        ensures nearest { IsNearest Ahead
            (is_match_any (schedules_of self.old))
            (pos self.old.from +ℤ pos 1)
            result }
        ensures bound { IfSome result (λ n. n < seconds_in_range) }
        ensures same { schedules_of self.new ≡ schedules_of self.old }
        ensures stands { self.new.from < seconds_in_range → Stands self.new }
    {
        let kept = &self.kept[..self.heads.len()];
        let next = pass_heads(self.heads.as_mut_slice(), kept, self.from);
        self.from = next;
        if next == NO_MATCH {
            return None;
        }
        Some(next)
    }
}
