//! Rows of days that a rule treats alike.
ghost use Rattle.std.specs.Prelude.{◌≡◌, ◌<◌, ◌≤◌, ℤ, ℕ, Bool, true, pos, IfSome};
ghost use Rattle.cron_units.specs.Nearest.{IsNearest};
ghost use Rattle.cron_moments.specs.Civil.{days_in_range};
ghost use Rattle.cron_days.specs.Days.{IsRow, is_each_day, end_of};

use cron_moments::civil::DAYS;
use cron_units::way::Way;

/// Days in a row, from `first` to `last`, of which a rule allows each or none.
#[derive(Clone, Copy)]
pub struct Row {
    /// The first day, by its number since 1970-01-01.
    pub first: u32,
    /// The last day.
    pub last: u32,
    /// Whether the rule allows each of them, or none.
    pub allowed: bool,
}

/// The nearest day of the range from `from` on.
pub(crate) fn first_day(way: Way, from: i64) -> Option<u32>
    ensures nearest { IsNearest way is_each_day from result }
    ensures bound { IfSome result (λ n. n < days_in_range) }
{
    match way {
        Way::Ahead if from >= i64::from(DAYS) => None,
        Way::Ahead => Some(from.max(0) as u32),
        Way::Back if from < 0 => None,
        Way::Back => Some(from.min(i64::from(DAYS) - 1) as u32),
    }
}

impl Row {
    /// The nearest day past the row in direction `way`, or `None` if the range has none.
    pub(crate) fn day_past(&self, way: Way) -> Option<u32>
        requires { self.now.last < days_in_range }
        ensures nearest { IsNearest way is_each_day (end_of way self.now) result }
        ensures bound { IfSome result (λ n. n < days_in_range) }
    {
        match way {
            Way::Ahead => first_day(way, i64::from(self.last) + 1),
            Way::Back => first_day(way, i64::from(self.first) - 1),
        }
    }
}
