//! The nearest year, and the nearest month of the range or of a year, that lie in the sets. `None`
//! means that there is none in the direction `way`.
ghost use Rattle.std.specs.Prelude.{◌+◌, ◌≤◌, ◌<◌, IfSome};
ghost use Rattle.cron_units.specs.Nearest.{IsNearest};
ghost use Rattle.cron_units.specs.Units.{contains, years};
ghost use Rattle.cron_moments.specs.Calendar.{first_month, months_end};
ghost use Rattle.cron_time.specs.Search.Inner.Numbers.{beyond_block, matches_month, matches_month_of_year};

use crate::search::counter::{Counter, Uncounted};
use crate::search::members::{Members, Unit};
use crate::search::neighbours::{Neighbours, nearest_in_parts, nearest_past_block};
use cron_units::way::Way;

/// The months of a year, from 0 for January.
pub(crate) struct MonthsOfYear;

impl Neighbours for MonthsOfYear {
    ghost use Rattle.cron_time.specs.Search.Inner.Filled.{months_filled};

    ghost passes = { matches_month_of_year };

    ghost parts = { 1 };

    ghost least = { 0 };

    ghost LIMIT = { 12 };

    #[inline(always)]
    fn nearest_counted<C: Counter>(
        members: &Members<'_>,
        counter: &mut C,
        way: Way,
        from: u32,
    ) -> Option<u32> {
        counter.count_one();
        let month = members.nearest(Unit::Month, way, from + 1)?;
        Some(month - 1)
    }

    ghost filled = { months_filled };
}

/// The years, 1970 to 2100.
pub(crate) struct Years;

impl Neighbours for Years {
    ghost use Rattle.cron_time.specs.Search.Inner.Filled.{years_filled};

    ghost passes = { λ s. contains s.years };

    ghost parts = { 1 };

    ghost least = { years.least };

    ghost LIMIT = { years.greatest + 1 };

    #[inline(always)]
    fn nearest_counted<C: Counter>(
        members: &Members<'_>,
        counter: &mut C,
        way: Way,
        from: u32,
    ) -> Option<u32> {
        counter.count_one();
        members.nearest(Unit::Year, way, from)
    }

    ghost filled = { years_filled };
}

/// The months of the range, numbered from January of the year 0 on.
pub(crate) struct Months;

impl Neighbours for Months {
    ghost use Rattle.cron_time.specs.Search.Inner.Filled.{all_months_filled};

    ghost passes = { matches_month };

    ghost parts = { 2 };

    ghost least = { first_month };

    ghost LIMIT = { months_end };

    #[inline(always)]
    fn nearest_counted<C: Counter>(
        members: &Members<'_>,
        counter: &mut C,
        way: Way,
        from: u32,
    ) -> Option<u32> {
        nearest_in_parts::<Years, MonthsOfYear, C>(members, counter, way, 12, from)
    }

    ghost filled = { all_months_filled };
}

/// The nearest month in the sets past `year`.
#[inline(always)]
pub(crate) fn month_past_year(members: &Members<'_>, way: Way, year: u32) -> Option<u32>
    requires { year ≤ years.greatest }
    ensures nearest { IsNearest way
        (matches_month members.now)
        (beyond_block way 12 year)
        result }
    ensures bound { IfSome result (λ n. (first_month ≤ n) × (n < months_end)) }
{
    nearest_past_block::<Years, MonthsOfYear, Uncounted>(members, &mut Uncounted, way, 12, year)
}
