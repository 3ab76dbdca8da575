//! Schedules as a set of civil seconds, by a plan or without one.
ghost use Rattle.std.specs.Prelude.{◌≡◌};
ghost use Rattle.cron_plans.specs.Plans.{planned_by};
ghost use Rattle.cron_plans.specs.Tables.{has_table};
ghost use Rattle.cron_unions.specs.Unions.{any_of};
ghost use Rattle.cron_plans.specs.declared.table.Table.{Table as Set};
ghost use Rattle.cron_plans.specs.Inner.Tables.{KnowsTable};

use crate::plan::Plan;
use crate::planned::Planned;
use cron_seconds::civil_seconds::CivilSeconds;
use cron_unions::{Union, UnionCursor};
use cron_units::fields::ScheduleFields;
use cron_units::way::Way;

/// Schedules as a set of civil seconds.
#[derive(Drop)]
pub enum Table<'a> {
    /// All that any of the schedules matches.
    Whole(&'a [ScheduleFields]),
    /// What a plan leaves of that.
    Planned(Planned<'a>),
}

impl<'a> Table<'a> {
    /// What `plan` leaves of `schedules`, or all that they match if that is `None`.
    pub fn of(schedules: &'a [ScheduleFields], plan: &Option<Plan<'a>>) -> Table<'a>
        ensures { has_table result ≡ planned_by plan.now (any_of schedules.now) }
    {
        match plan {
            Some(plan) => Table::Planned(Planned::of(schedules, plan)),
            None => Table::Whole(schedules),
        }
    }
}

impl<'a> CivilSeconds for Table<'a> {
    ghost use Rattle.cron_plans.specs.Tables.{has_table};
    ghost use Rattle.cron_plans.specs.Inner.Tables.{KnowsTable};

    ghost has = { has_table };

    type Cursor = UnionCursor;

    ghost knows = { KnowsTable };

    fn nearest(&self, way: Way, from: i64) -> Option<u32> {
        match self {
            Table::Whole(schedules) => Union { schedules }.nearest(way, from),
            Table::Planned(planned) => planned.nearest(way, from),
        }
    }

    fn begin() -> UnionCursor
        ensures { (table : Set) → KnowsTable table result }
    {
        Union::begin()
    }

    fn past(&self, way: Way, second: u32, cursor: &mut UnionCursor) -> Option<u32> {
        match self {
            Table::Whole(schedules) => Union { schedules }.past(way, second, cursor),
            Table::Planned(planned) => planned.past(way, second, &mut ()),
        }
    }

    fn is_clear(&self, first: u32, end: u32) -> bool {
        match self {
            Table::Whole(schedules) => Union { schedules }.is_clear(first, end),
            Table::Planned(_) => false,
        }
    }
}
