//! A view of the sets for code that only looks up members.
ghost use Rattle.std.specs.Prelude.{◌≡◌, ◌≤◌, pos, IfSome};
ghost use Rattle.cron_units.specs.Nearest.{IsNearest};
ghost use Rattle.cron_units.specs.Units.{contains};
ghost use Rattle.cron_time.specs.Search.Inner.Members.{members, unit_of};

use cron_units::fields::ScheduleFields;
use cron_units::way::Way;
use std::marker::Model;

/// The units that a search looks for members of.
#[derive(Clone, Copy)]
pub(crate) enum Unit {
    Second,
    Minute,
    Hour,
    Day,
    Month,
    Year,
}

/// The sets, open only to look-ups of members. A function that has only this view makes no date and
/// uses no zone.
#[derive(Drop)]
pub(crate) struct Members<'a> {
    fields: &'a ScheduleFields,
}

impl<'a> Model for Members<'a> {
    ghost use Rattle.cron_units.specs.Sets.{Sets};

    ghost Value = { Sets };

    ghost view = { λ m. m.fields.now };
}

impl<'a> Members<'a> {
    /// The members of these sets.
    #[inline(always)]
    pub(crate) fn of(fields: &'a ScheduleFields) -> Members<'a>
        ensures { result ≡ fields.now }
    {
        Members { fields }
    }

    /// The nearest member of the unit's set, from `from` on, or `None` if there is none. Of the
    /// days of the month these are the numbered ones.
    #[inline(always)]
    pub(crate) fn nearest(&self, unit: Unit, way: Way, from: u32) -> Option<u32>
        ensures nearest { IsNearest way (contains (members unit self.now)) (pos from) result }
        ensures bound { IfSome result
            (λ n. ((unit_of unit).least ≤ n) × (n ≤ (unit_of unit).greatest)) }
    {
        match unit {
            Unit::Second => self.fields.nearest_second(way, from),
            Unit::Minute => self.fields.nearest_minute(way, from),
            Unit::Hour => self.fields.nearest_hour(way, from),
            Unit::Day => self.fields.nearest_day(way, from),
            Unit::Month => self.fields.nearest_month(way, from),
            Unit::Year => self.fields.nearest_year(way, from),
        }
    }

    /// Returns true if the last day of each month is one of the days, besides the numbered ones.
    #[inline(always)]
    pub(crate) fn takes_last_day(&self) -> bool
        ensures { result ≡ self.now.days_of_month.last_day }
    {
        let fields = self.fields;
        fields.days_of_month.last_day()
    }
}
