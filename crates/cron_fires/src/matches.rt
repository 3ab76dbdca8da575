//! The next civil second of a set, regardless of zone.
ghost use Rattle.cron_fires.specs.Matches.{IsNextMatch, Matches};

use cron_seconds::civil_seconds::CivilSeconds;
use cron_units::way::Way;

/// The next civil second that matches after `second`, which matches too. Both are counted from
/// 1970-01-01T00:00:00. `None` if there is none. It uses no zone, so a clock may show that second
/// twice or never.
#[inline(always)]
pub fn next_match<T: CivilSeconds>(table: &T, second: u32) -> Option<u32>
    requires { Matches (T.has table.now) second }
    ensures { IsNextMatch (T.has table.now) second result }
{
    let mut cursor = T::begin();
    table.past(Way::Ahead, second, &mut cursor)
}
