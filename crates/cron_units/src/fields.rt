//! The seven sets of a schedule, one of each unit.

ghost use Rattle.std.specs.Prelude.{◌≡◌, ◌≤◌, ◌<◌, pos, IfSome};
ghost use Rattle.cron_units.specs.Nearest.{IsNearest};
ghost use Rattle.cron_units.specs.Units.{contains};

use crate::time_unit::{
    DaysOfMonth, DaysOfWeek, Hours, Minutes, Months, Ordinal, Seconds, TimeUnitField, TimeUnitSpec,
    Years,
};
use crate::way::Way;
use std::marker::Model;

/// The seven sets of a schedule, one for each field. Contracts see them as `Sets`.
#[derive(Debug, Clone, Copy, PartialEq, Eq)]
pub struct ScheduleFields {
    pub seconds: Seconds,
    pub minutes: Minutes,
    pub hours: Hours,
    pub days_of_month: DaysOfMonth,
    pub months: Months,
    pub days_of_week: DaysOfWeek,
    pub years: Years,
}

impl Model for ScheduleFields {
    ghost use Rattle.cron_units.specs.Sets.{Sets};

    ghost Value = { Sets };

    ghost view = { λ f. record {
      seconds = f.seconds;
      minutes = f.minutes;
      hours = f.hours;
      days_of_month = f.days_of_month;
      months = f.months;
      days_of_week = f.days_of_week;
      years = f.years;
    } };

    ghost inverse = { λ s. record {
      seconds = s.seconds;
      minutes = s.minutes;
      hours = s.hours;
      days_of_month = s.days_of_month;
      months = s.months;
      days_of_week = s.days_of_week;
      years = s.years;
    } };
}

impl ScheduleFields {
    /// Returns the nearest second of the set from `from` on, in the direction `way`, or `None`.
    pub fn nearest_second(&self, way: Way, from: Ordinal) -> Option<Ordinal>
        ensures nearest { IsNearest way (contains self.now.seconds) (pos from) result }
        ensures bound { IfSome result (λ n. n < 60) }
    {
        self.seconds.nearest(way, from)
    }

    /// Returns the nearest minute of the set from `from` on, in the direction `way`, or `None`.
    pub fn nearest_minute(&self, way: Way, from: Ordinal) -> Option<Ordinal>
        ensures nearest { IsNearest way (contains self.now.minutes) (pos from) result }
        ensures bound { IfSome result (λ n. n < 60) }
    {
        self.minutes.nearest(way, from)
    }

    /// Returns the nearest hour of the set from `from` on, in the direction `way`, or `None`.
    pub fn nearest_hour(&self, way: Way, from: Ordinal) -> Option<Ordinal>
        ensures nearest { IsNearest way (contains self.now.hours) (pos from) result }
        ensures bound { IfSome result (λ n. n < 24) }
    {
        self.hours.nearest(way, from)
    }

    /// Returns the nearest numbered day of the set from `from` on, in the direction `way`, or
    /// `None`. Whether the last day of the month is in the set makes no difference.
    pub fn nearest_day(&self, way: Way, from: Ordinal) -> Option<Ordinal>
        ensures nearest { IsNearest way
            (contains self.now.days_of_month.ordinals)
            (pos from)
            result }
        ensures bound { IfSome result (λ n. (1 ≤ n) × (n ≤ 31)) }
    {
        self.days_of_month.nearest(way, from)
    }

    /// Returns the nearest month of the set from `from` on, in the direction `way`, or `None`.
    pub fn nearest_month(&self, way: Way, from: Ordinal) -> Option<Ordinal>
        ensures nearest { IsNearest way (contains self.now.months) (pos from) result }
        ensures bound { IfSome result (λ n. (1 ≤ n) × (n ≤ 12)) }
    {
        self.months.nearest(way, from)
    }

    /// Returns the nearest year of the set from `from` on, in the direction `way`, or `None`.
    pub fn nearest_year(&self, way: Way, from: Ordinal) -> Option<Ordinal>
        ensures nearest { IsNearest way (contains self.now.years) (pos from) result }
        ensures bound { IfSome result (λ n. (1970 ≤ n) × (n ≤ 2100)) }
    {
        self.years.nearest(way, from)
    }

    /// Returns true if `weekday`, 1 (Sunday) to 7, is in the set of days of the week.
    pub fn includes_weekday(&self, weekday: Ordinal) -> bool
        ensures { result ≡ contains self.now.days_of_week weekday }
    {
        self.days_of_week.includes(weekday)
    }
}
