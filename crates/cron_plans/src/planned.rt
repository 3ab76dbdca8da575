//! What a plan leaves of schedules.
ghost use Rattle.std.specs.Prelude.{◌≡◌};
ghost use Rattle.cron_plans.specs.Plans.{planned};
ghost use Rattle.cron_plans.specs.Inner.Planned.{has_planned};
ghost use Rattle.cron_unions.specs.Unions.{any_of};
ghost use Rattle.cron_plans.specs.declared.planned.Planned.{Planned as Set};

use crate::plan::Plan;
use crate::rest::Rest;
use cron_days::all::All;
use cron_days::moved::Moved;
use cron_days::on_days::OnDays;
use cron_days::rule::Rule;
use cron_seconds::civil_seconds::CivilSeconds;
use cron_units::fields::ScheduleFields;
use cron_units::way::Way;

/// The civil seconds that a plan leaves of schedules. Each search begins anew.
#[derive(Drop)]
pub struct Planned<'a> {
    rest: Rest<'a>,
    days: &'a [Rule],
    moves: Option<Way>,
}

impl<'a> Planned<'a> {
    /// What `plan` leaves of `schedules`.
    pub(crate) fn of(schedules: &'a [ScheduleFields], plan: &Plan<'a>) -> Planned<'a>
        ensures { has_planned result ≡ planned plan.now (any_of schedules.now) }
    {
        Planned {
            rest: Rest::of(schedules, plan.without),
            days: plan.days,
            moves: plan.moves,
        }
    }
}

impl<'a> CivilSeconds for Planned<'a> {
    ghost use Rattle.cron_plans.specs.Inner.Planned.{has_planned};

    ghost has = { has_planned };

    type Cursor = ();

    ghost knows = { λ set cursor. Unit {0} };

    fn nearest(&self, way: Way, from: i64) -> Option<u32> {
        let all = All { rules: self.days };
        let (seconds, days) = (&self.rest, &all);
        match self.moves {
            None => OnDays { seconds, days }.nearest(way, from),
            Some(to) => Moved {
                seconds,
                days,
                way: to,
            }
            .nearest(way, from),
        }
    }

    fn begin()
        ensures { (set : Set) → Unit {0} }
    {}

    fn past(&self, way: Way, second: u32, _cursor: &mut ()) -> Option<u32> {
        match way {
            Way::Ahead => self.nearest(way, i64::from(second) + 1),
            Way::Back => self.nearest(way, i64::from(second) - 1),
        }
    }
}
