//! The years of the range, from 1970 to 2100. Seconds count from 1970-01-01 00:00:00, and days from
//! 1970-01-01.
ghost use Rattle.std.specs.Prelude.{◌≡◌, ◌<◌, ◌+◌, ◌*◌, ◌/◌};
ghost use Rattle.jiff_core.specs.Calendar.{IsEpochDay};
ghost use Rattle.jiff_tz.specs.PosixRule as Rule;
ghost use Rattle.cron_moments.specs.Civil.{seconds_in_range};
ghost use Rattle.cron_clocks.specs.Seasons.{IsYearAt, IsYearOf};

use cron_moments::civil::SECONDS_PER_DAY;

/// A year, and the number of the day that begins it.
#[derive(Clone, Copy)]
pub(crate) struct Year {
    pub number: i16,
    pub new_year: i32,
}

// How many years after 1970 the year of `second` is. From 1972 on each fourth year is longer, but
// for 2100, which is the last year of the range.
fn years_before(second: u32) -> u32
    requires { second < seconds_in_range }
    ensures { result ≡ (4 * (second / 86_400) + 2) / 1461 }
{
    (4 * (second / SECONDS_PER_DAY) + 2) / 1461
}

// How many days the first `years` years from 1970 on have.
fn days_of(years: u32) -> u32
    requires { years < 131 }
    ensures { result ≡ (1461 * years + 1) / 4 }
{
    (1461 * years + 1) / 4
}

/// The second that begins the year of `second`.
pub(crate) fn year_start_of(second: u32) -> u32
    requires { second < seconds_in_range }
    ensures { IsYearOf result second }
{
    days_of(years_before(second)) * SECONDS_PER_DAY
}

/// The year of a second.
pub(crate) fn year_of(second: u32) -> Year
    requires { second < seconds_in_range }
    ensures year { IsYearAt result.number second }
    ensures new_year { result.new_year ≡ Rule.first_day result.number }
    ensures bound { IsEpochDay result.new_year }
{
    let years = years_before(second);
    Year {
        number: 1970 + years as i16,
        new_year: days_of(years) as i32,
    }
}
