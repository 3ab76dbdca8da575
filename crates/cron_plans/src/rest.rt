//! What some schedules match and others don't.
ghost use Rattle.std.specs.Prelude.{◌≡◌, IfSome};
ghost use Rattle.std.specs.Option.{ForSome};
ghost use Rattle.cron_days.specs.Sets.{except};
ghost use Rattle.cron_unions.specs.Unions.{any_of};

use cron_days::except::Except;
use cron_days::rest::rest_of;
use cron_seconds::civil_seconds::CivilSeconds;
use cron_unions::Union;
use cron_units::fields::ScheduleFields;
use cron_units::way::Way;

/// What schedules match and others don't. If there is one of each, it is split into schedules of its
/// own, so that no search walks through what is left out.
#[derive(Drop)]
pub(crate) struct Rest<'a> {
    schedules: &'a [ScheduleFields],
    without: &'a [ScheduleFields],
    parts: Option<[ScheduleFields; 7]>,
    ghost same: { ForSome parts (λ p. any_of p
        ≡ except (any_of schedules.now) (any_of without.now)) },
}

// The schedules of what the one schedule matches and the other one doesn't. `None` if there are more
// or fewer, or if one marks the last day of the month.
fn parts_of(schedules: &[ScheduleFields], without: &[ScheduleFields]) -> Option<[ScheduleFields; 7]>
    ensures { IfSome result (λ parts. any_of parts
        ≡ except (any_of schedules.now) (any_of without.now)) }
{
    match (schedules, without) {
        ([one], [other]) => rest_of(one, other),
        _ => None,
    }
}

impl<'a> Rest<'a> {
    /// What `schedules` match and `without` don't.
    pub(crate) fn of(schedules: &'a [ScheduleFields], without: &'a [ScheduleFields]) -> Rest<'a>
        ensures schedules { result.schedules.now ≡ schedules.now }
        ensures without { result.without.now ≡ without.now }
    {
        let parts = parts_of(schedules, without);
        Rest {
            schedules,
            without,
            parts,
        }
    }
}

impl<'a> CivilSeconds for Rest<'a> {
    ghost use Rattle.cron_days.specs.Sets.{except};
    ghost use Rattle.cron_unions.specs.Unions.{any_of};
    ghost use Rattle.cron_plans.specs.declared.rest.Rest.{Rest as Left};

    ghost has = { λ rest. except (any_of rest.schedules.now) (any_of rest.without.now) };

    type Cursor = ();

    ghost knows = { λ rest cursor. Unit {0} };

    fn nearest(&self, way: Way, from: i64) -> Option<u32> {
        if let Some(parts) = &self.parts {
            return Union { schedules: parts }.nearest(way, from);
        }
        let walked = Except {
            seconds: Union {
                schedules: self.schedules,
            },
            without: Union {
                schedules: self.without,
            },
        };
        walked.nearest(way, from)
    }

    fn begin()
        ensures { (rest : Left) → Unit {0} }
    {}

    fn past(&self, way: Way, second: u32, _cursor: &mut ()) -> Option<u32> {
        match way {
            Way::Ahead => self.nearest(way, i64::from(second) + 1),
            Way::Back => self.nearest(way, i64::from(second) - 1),
        }
    }
}
