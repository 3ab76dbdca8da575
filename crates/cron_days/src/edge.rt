//! The first and the last civil second of a day.
ghost use Rattle.std.specs.Prelude.{◌≡◌, ◌<◌};
ghost use Rattle.cron_moments.specs.Civil.{days_in_range};
ghost use Rattle.cron_days.specs.Inner.Edges.{edge_of};

use cron_moments::civil::SECONDS_PER_DAY;
use cron_units::way::Way;

/// The civil second of a day that a search in direction `way` reaches first.
pub(crate) fn edge(way: Way, day: u32) -> i64
    requires { day < days_in_range }
    ensures { result ≡ edge_of way day }
{
    let first = i64::from(day) * i64::from(SECONDS_PER_DAY);
    match way {
        Way::Ahead => first,
        Way::Back => first + i64::from(SECONDS_PER_DAY) - 1,
    }
}
