//! Rules of days: what a search needs of a rule.
ghost use Rattle.std.specs.Prelude.{◌≡◌, ◌<◌, ℕ, Bool, IfSome};
ghost use Rattle.cron_units.specs.Nearest.{IsNearest};
ghost use Rattle.cron_moments.specs.Civil.{days_in_range};
ghost use Rattle.cron_days.specs.Days.{IsRow, is_day};

use crate::row::{Row, first_day};
use cron_moments::civil::DAYS;
use cron_units::way::Way;

/// A rule that allows some days of 1970-01-01 to 2100-12-31. A reference to a rule is a rule too.
pub trait Days: Drop {
    /// Which days the rule allows, by their numbers since 1970-01-01. Numbers past the range don't
    /// count.
    ghost allows: { Self → ℕ → Bool };

    /// Some days in a row that the rule treats alike, `day` among them. A search jumps over them, so
    /// more of them make it faster.
    fn row_of(&self, day: u32) -> Row
        requires { day < days_in_range }
        ensures { IsRow (allows self.now) day result };

    /// Returns true if `day` is in the range and the rule allows it.
    fn has_day(&self, day: u32) -> bool
        ensures { result ≡ is_day (allows self.now) day }
    {
        day < DAYS && self.row_of(day).allowed
    }

    /// The nearest day that the rule allows, from `from` on. `Way::Ahead` gives the first one at or
    /// after `from`, and `Way::Back` the last one at or before it. `None` exactly if there is none.
    fn nearest_day(&self, way: Way, from: i64) -> Option<u32>
        ensures nearest { IsNearest way (is_day (allows self.now)) from result }
        ensures bound { IfSome result (λ n. n < days_in_range) }
    {
        let mut next = first_day(way, from);
        while let Some(day) = next {
            let row = self.row_of(day);
            if row.allowed {
                return Some(day);
            }
            next = row.day_past(way);
        }
        None
    }
}

impl<'a, D: Days> Days for &'a D {
    ghost allows = { λ lent. D.allows lent.now };

    fn row_of(&self, day: u32) -> Row {
        D::row_of(self, day)
    }
}
