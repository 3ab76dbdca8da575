//! The heads of several schedules. A schedule's head is its nearest match from a number on, and
//! what a search of it has learned.
ghost use Rattle.std.specs.Prelude.{◌≡◌, ℤ, ◌<◌, ◌≤◌, pos, ◌+ℤ◌, IfSome, List, length};
ghost use Rattle.cron_units.specs.Nearest.{IsNearest};
ghost use Rattle.cron_units.specs.Sets.{Sets};
ghost use Rattle.cron_units.specs.declared.way.Way.TheVariants.{Ahead};
ghost use Rattle.cron_moments.specs.Civil.{seconds_in_range};
ghost use Rattle.cron_unions.specs.Inner.Heads.{AreHeads, ArePassing, IsHead, IsPassing, match_of};
ghost use Rattle.cron_unions.specs.Nearest.{is_match_any};

use arrayvec::ArrayVec;
use cron_moments::calendar::KnownMonth;
use cron_time::search::civil_seconds::{match_past, nearest_match};
use cron_time::search::minute::Minute;
use cron_time::search::month_days::MonthDays;
use cron_units::fields::ScheduleFields;
use cron_units::way::Way;

/// The number for no match. It is greater than the number of each match.
pub(crate) const NO_MATCH: u32 = u32::MAX;

/// The nearest match of a schedule from a number on, or `NO_MATCH`, and what is known of its minute
/// and of the days of its month.
#[derive(Clone, Copy)]
pub(crate) struct Head {
    pub next: u32,
    pub minute: Minute,
    pub days: MonthDays,
}

impl Default for Head {
    fn default() -> Head {
        Head {
            next: NO_MATCH,
            minute: Minute::epoch(),
            days: MonthDays::unknown(KnownMonth::january_1970()),
        }
    }
}

// The number of a match, or `NO_MATCH` for `None`.
#[inline(always)]
fn number_of(next: Option<u32>) -> u32
    requires { IfSome next (λ n. n < seconds_in_range) }
    ensures { match_of result ≡ next }
{
    match next {
        Some(second) => second,
        None => NO_MATCH,
    }
}

impl Head {
    // The head of a schedule: its first match at or after `from`.
    fn of(fields: &ScheduleFields, from: i64) -> Head
        ensures { IsHead fields.now from result }
    {
        Head {
            next: number_of(nearest_match(fields, Way::Ahead, from)),
            minute: Minute::epoch(),
            days: MonthDays::unknown(KnownMonth::january_1970()),
        }
    }

    // Moves the head past `second`, if its match is `second`.
    #[inline(always)]
    fn pass(&mut self, fields: &ScheduleFields, second: u32)
        requires range { second < seconds_in_range }
        requires passing { IsPassing fields.now second self.old }
        ensures { IsHead fields.now (pos second +ℤ pos 1) self.new }
    {
        if self.next != second {
            return;
        }
        let next = match_past(fields, Way::Ahead, second, &mut self.minute, &mut self.days);
        self.next = number_of(next);
    }
}

/// The heads of at most `N` schedules: the first match of each at or after `from`.
pub(crate) fn heads_of<const N: usize>(schedules: &[ScheduleFields], from: i64) -> ArrayVec<Head, N>
    requires { length schedules.now ≤ N }
    ensures heads { AreHeads schedules.now from result.items }
    ensures all { length result.items ≡ length schedules.now }
{
    let mut heads = ArrayVec::new();
    for fields in schedules {
        heads.push(Head::of(fields, from));
    }
    heads
}

// The least match of the heads, or `NO_MATCH`.
#[inline(always)]
fn least_head(heads: &[Head]) -> u32
    ensures { (schedules : List Sets) (from : ℤ)
        → AreHeads schedules from heads.now
        → length heads.now ≡ length schedules
        → IsNearest Ahead (is_match_any schedules) from (match_of result) }
{
    let mut least = NO_MATCH;
    for head in heads {
        least = least.min(head.next);
    }
    least
}

// Moves each head past `second`. Returns the first match after `second`, or `NO_MATCH`.
#[inline(never)]
fn pass_each(heads: &mut [Head], schedules: &[ScheduleFields], second: u32) -> u32
    requires range { second < seconds_in_range }
    requires passing { ArePassing schedules.now second heads.old }
    requires all { length heads.old ≡ length schedules.now }
    ensures heads { AreHeads schedules.now (pos second +ℤ pos 1) heads.new }
    ensures size { length heads.new ≡ length heads.old }
    ensures nearest { IsNearest Ahead
        (is_match_any schedules.now)
        (pos second +ℤ pos 1)
        (match_of result) }
{
    for at in 0..heads.len() {
        let head = &mut heads[at];
        head.pass(&schedules[at], second);
    }
    least_head(heads)
}

/// Moves the heads past `second`, where no head is before `second`. Returns the first match after
/// `second`, or `NO_MATCH`. Of two heads usually only one is at `second`, so that one is moved
/// first.
#[inline(always)]
pub(crate) fn pass_heads(heads: &mut [Head], schedules: &[ScheduleFields], second: u32) -> u32
    requires range { second < seconds_in_range }
    requires heads { AreHeads schedules.now (pos second) heads.old }
    requires all { length heads.old ≡ length schedules.now }
    ensures heads { AreHeads schedules.now (pos second +ℤ pos 1) heads.new }
    ensures size { length heads.new ≡ length heads.old }
    ensures nearest { IsNearest Ahead
        (is_match_any schedules.now)
        (pos second +ℤ pos 1)
        (match_of result) }
{
    if schedules.len() != 2 {
        return pass_each(heads, schedules, second);
    }
    if heads[0].next == second {
        let near = &mut heads[0];
        near.pass(&schedules[0], second);
    } else {
        let near = &mut heads[1];
        near.pass(&schedules[1], second);
    }
    let least = heads[0].next.min(heads[1].next);
    if least == second {
        return pass_each(heads, schedules, second);
    }
    least
}
