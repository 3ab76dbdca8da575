//! Civil times as people say them, by what the clock shows.

ghost use Rattle.std.specs.Prelude.{◌<◌, IfSome, neg_ℤ, pos};
ghost use Rattle.jiff_core.specs.Calendar.{IsBetween};
ghost use Rattle.jiff.specs.Words.{plain_zone};
ghost use Rattle.cron_moments.specs.Civil.{seconds_in_range};
ghost use Rattle.cron_answers.specs.Instants.{IsSaid, IsSaidAt, IsShown, Tells, TellsSecond};

use crate::day::{days_named, time_of_day};
use crate::shift::days_away;
use cron_clocks::clock::shown_at;
use cron_clocks::stretch::Stretch;
use cron_moments::civil::{SECONDS, SECONDS_PER_DAY};
use jiff::Timestamp;
use jiff::tz::TimeZone;

/// The seconds of a day.
const DAY: i64 = 86_400;

/// The civil second that the zone's clock shows at an instant, since 1970-01-01 00:00:00. `None`
/// outside of 1970 to 2100.
pub(crate) fn shown_second(zone: &TimeZone<'_>, instant: Timestamp) -> Option<u32>
    ensures { TellsSecond (IsShown (plain_zone zone.now) instant.nanosecond) result }
{
    let second = shown_at(zone, instant, &mut Stretch::empty());
    if second < 0 {
        return None;
    }
    if second >= SECONDS {
        return None;
    }
    Some(second as u32)
}

// The civil second that a text means while the clock shows `shown`: the midnight that begins a day
// or a month, a time of today, or the time shown, some days away. It may be outside of 1970 to
// 2100. `None` for any other text.
fn said(text: &str, shown: u32) -> Option<i64>
    requires { shown < seconds_in_range }
    ensures second { Tells (IsSaid text.now shown) result }
    ensures bound { IfSome result
        (IsBetween (neg_ℤ (pos 4_000_000_000_000_000)) (pos 4_000_000_000_000_000)) }
{
    let today = shown / SECONDS_PER_DAY;
    if let Some(days) = days_named(text, today) {
        return Some(i64::from(days.first * SECONDS_PER_DAY));
    }
    if let Some(seconds) = time_of_day(text) {
        return Some(i64::from(today * SECONDS_PER_DAY + seconds));
    }
    match days_away(text) {
        Some(days) => Some(i64::from(shown) + days * DAY),
        None => None,
    }
}

/// The civil second that a text means in a zone at the time `now`. `None` for any other text, and
/// if the clock isn't within 1970 to 2100.
pub(crate) fn said_at(text: &str, zone: &TimeZone<'_>, now: Timestamp) -> Option<i64>
    ensures second { Tells (IsSaidAt text.now (plain_zone zone.now) now.nanosecond) result }
    ensures bound { IfSome result
        (IsBetween (neg_ℤ (pos 4_000_000_000_000_000)) (pos 4_000_000_000_000_000)) }
{
    let Some(shown) = shown_second(zone, now) else {
        return None;
    };
    said(text, shown)
}
