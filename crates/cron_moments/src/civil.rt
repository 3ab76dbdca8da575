//! Numbers of civil seconds, counted from 1970-01-01 00:00:00.
ghost use Rattle.std.specs.Prelude.{◌≡◌, ◌≤◌};
ghost use Rattle.jiff_core.specs.DateTime.{civil_seconds};
ghost use Rattle.cron_moments.specs.Civil.{civil};
ghost use Rattle.cron_moments.specs.CivilDates.{date_numbered};

use jiff::civil::DateTime;
use jiff_core::civil::{Date, Time};

/// How many civil seconds the range has, 1970-01-01 00:00:00 to 2100-12-31 23:59:59.
pub const SECONDS: i64 = 4_133_980_800;

/// How many days the range has, 1970-01-01 to 2100-12-31.
pub const DAYS: u32 = 47_847;

/// The seconds of a day.
pub const SECONDS_PER_DAY: u32 = 86_400;

/// The greatest difference of a clock from UTC, in seconds: 25:59:59.
pub const FURTHEST_OFFSET: i64 = 93_599;

/// How many days there are from the first date of `jiff` to 1970-01-01.
const DAYS_FROM_FIRST_DATE: u32 = 4_371_587;

/// How many seconds after 1970-01-01 00:00:00 a civil datetime is, negative before it. A part of a
/// second is dropped.
pub fn civil_number(dt: DateTime) -> i64
    ensures { result ≡ civil_seconds dt }
{
    dt.to_plain().to_second()
}

/// The date that is `day` days after 1970-01-01.
fn date_of(day: u32) -> Date
    requires { day ≤ 2_932_896 }
    ensures { result ≡ (date_numbered day).0 }
{
    Date::from_days_since_min(day + DAYS_FROM_FIRST_DATE)
}

/// The civil datetime that is `second` seconds after 1970-01-01 00:00:00.
pub fn civil_of(second: u32) -> DateTime
    ensures { result ≡ civil second }
{
    DateTime::from_plain(jiff_core::civil::DateTime {
        date: date_of(second / SECONDS_PER_DAY),
        time: Time::from_second(second % SECONDS_PER_DAY, 0),
    })
}
