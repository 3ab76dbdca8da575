//! Several schedules as one set. A search of a few schedules may merge them: it then keeps the
//! nearest match of each.
ghost use Rattle.std.specs.Prelude.{◌<◌, pos, ◌+ℤ◌, IfSome, List};
ghost use Rattle.cron_units.specs.Nearest.{IsNearest};
ghost use Rattle.cron_units.specs.Sets.{Sets};
ghost use Rattle.cron_units.specs.declared.way.Way.TheVariants.{Ahead};
ghost use Rattle.cron_moments.specs.Civil.{seconds_in_range};
ghost use Rattle.cron_time.specs.Search.Inner.Numbers.{beyond};
ghost use Rattle.cron_unions.specs.Inner.Cursor.{Knows};
ghost use Rattle.cron_unions.specs.Nearest.{is_match_any};
ghost use Rattle.cron_unions.specs.Unions.{any_of};
ghost use Rattle.cron_unions.specs.declared.union.Union.{Union as Several};

use crate::merge::{MERGED, Merge};
use crate::nearest::{are_clear, nearest_of, nearest_past};
use cron_moments::calendar::KnownMonth;
use cron_seconds::civil_seconds::CivilSeconds;
use cron_time::search::civil_seconds::match_past;
use cron_time::search::minute::Minute;
use cron_time::search::month_days::MonthDays;
use cron_units::fields::ScheduleFields;
use cron_units::way::Way;

/// Several schedules as one: the civil seconds that match any of them, each once.
#[derive(Clone, Copy)]
pub struct Union<'a> {
    /// The schedules, in any order.
    pub schedules: &'a [ScheduleFields],
}

/// What a search of a union has learned. For a single schedule, these are its last minute and the
/// days of a month. For at most `MERGED` schedules it is the nearest match of each, from the second
/// call of a run on.
#[derive(Drop)]
pub struct UnionCursor {
    minute: Minute,
    days: MonthDays,
    asked: bool,
    merge: Option<Merge>,
}

impl<'a> CivilSeconds for Union<'a> {
    ghost use Rattle.cron_unions.specs.Inner.Cursor.{Knows};
    ghost use Rattle.cron_unions.specs.Unions.{any_of};

    ghost has = { λ union. any_of union.schedules.now };

    type Cursor = UnionCursor;

    ghost knows = { λ union cursor. Knows union.schedules.now cursor };

    fn nearest(&self, way: Way, from: i64) -> Option<u32> {
        nearest_of(self.schedules, way, from)
    }

    fn begin() -> UnionCursor
        ensures { (union : Several) → Knows union.schedules.now result }
    {
        unasked()
    }

    #[inline(always)]
    fn past(&self, way: Way, second: u32, cursor: &mut UnionCursor) -> Option<u32> {
        match self.schedules {
            [one] => match_past(one, way, second, &mut cursor.minute, &mut cursor.days),
            several => several_past(several, way, second, cursor),
        }
    }

    fn is_clear(&self, first: u32, end: u32) -> bool {
        are_clear(self.schedules, first, end)
    }
}

// A cursor that knows nothing yet.
fn unasked() -> UnionCursor
    ensures { (schedules : List Sets) → Knows schedules result }
{
    UnionCursor {
        minute: Minute::epoch(),
        days: MonthDays::unknown(KnownMonth::january_1970()),
        asked: false,
        merge: None,
    }
}

// The first match after `second`, where no merge is at `second`; `None` if there is none. At most
// `MERGED` schedules are merged, and only at the second call of a run: a single call would lose
// time by it.
#[inline(never)]
fn searched_past(schedules: &[ScheduleFields], second: u32, cursor: &mut UnionCursor) -> Option<u32>
    requires range { second < seconds_in_range }
    requires knows { Knows schedules.now cursor.old }
    ensures nearest { IsNearest Ahead (is_match_any schedules.now) (pos second +ℤ pos 1) result }
    ensures bound { IfSome result (λ n. n < seconds_in_range) }
    ensures knows { Knows schedules.now cursor.new }
{
    if schedules.len() > MERGED || !cursor.asked {
        cursor.asked = true;
        return nearest_past(schedules, Way::Ahead, second);
    }
    let mut merge = Merge::from(schedules, second);
    let next = merge.pass();
    cursor.merge = Some(merge);
    next
}

// The first match after `second`, or `None` if there is none: by the merge, if that is at `second`.
#[inline(always)]
fn next_past(schedules: &[ScheduleFields], second: u32, cursor: &mut UnionCursor) -> Option<u32>
    requires range { second < seconds_in_range }
    requires knows { Knows schedules.now cursor.old }
    ensures nearest { IsNearest Ahead (is_match_any schedules.now) (pos second +ℤ pos 1) result }
    ensures bound { IfSome result (λ n. n < seconds_in_range) }
    ensures knows { Knows schedules.now cursor.new }
{
    if let Some(merge) = &mut cursor.merge {
        if merge.from == second {
            return merge.pass();
        }
    }
    searched_past(schedules, second, cursor)
}

// The nearest match past `second` in direction `way`, or `None` if there is none. Nothing is merged
// for a search back.
#[inline(always)]
fn several_past(
    schedules: &[ScheduleFields],
    way: Way,
    second: u32,
    cursor: &mut UnionCursor,
) -> Option<u32>
    requires range { second < seconds_in_range }
    requires knows { Knows schedules.now cursor.old }
    ensures nearest { IsNearest way (is_match_any schedules.now) (beyond way second) result }
    ensures bound { IfSome result (λ n. n < seconds_in_range) }
    ensures knows { Knows schedules.now cursor.new }
{
    match way {
        Way::Ahead => next_past(schedules, second, cursor),
        Way::Back => nearest_past(schedules, way, second),
    }
}
