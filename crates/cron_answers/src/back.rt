//! The fires before an instant, the latest first.

ghost use Rattle.std.specs.Prelude.{◌≡◌};
ghost use Rattle.jiff.specs.Words.{plain_zone};
ghost use Rattle.cron_answers.specs.Fires.{dues_before, moments_before};
ghost use Rattle.cron_answers.specs.Inner.Backs.{IsJustBefore};

use cron_fires::{AsShown, BackRun, CivilSeconds, Once};
use jiff::Timestamp;
use jiff::tz::TimeZone;

/// The last instant before `instant`. The first instant of all is returned unchanged: no fire comes
/// up to it.
pub(crate) fn just_before(instant: Timestamp) -> Timestamp
    ensures { IsJustBefore instant.nanosecond result.nanosecond }
{
    match Timestamp::from_nanosecond(instant.as_nanosecond() - 1) {
        Ok(before) => before,
        Err(_) => instant,
    }
}

/// The times before `end` when the clock shows a match, the latest first.
pub(crate) fn moments_before<'a, S: CivilSeconds>(
    table: S,
    end: Timestamp,
    zone: &'a TimeZone<'a>,
) -> BackRun<'a, S, AsShown<TimeZone<'a>>>
    ensures { result ≡ moments_before (S.has table) (plain_zone zone.now) end.nanosecond }
{
    BackRun::by(table, just_before(end), zone)
}

/// The matches, each once, whose instant comes before `end`, the latest first.
pub(crate) fn dues_before<'a, S: CivilSeconds>(
    table: S,
    end: Timestamp,
    zone: &'a TimeZone<'a>,
) -> BackRun<'a, S, Once<TimeZone<'a>>>
    ensures { result ≡ dues_before (S.has table) (plain_zone zone.now) end.nanosecond }
{
    BackRun::by(table, just_before(end), zone)
}
