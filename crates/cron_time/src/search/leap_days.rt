//! Schedules that only 29 February can match.
//!
//! A search for them goes from one February of a year that 4 divides to the next. Months are
//! numbered from January of the year 0, so each of these numbers is 1 more than a multiple of 48.
//! The year is looked up in its set as always, and 2100 fails by the length of its February.

ghost use Rattle.std.specs.Prelude.{◌≡◌, ℕ, ◌%◌, ◌<◌, ◌≤◌, true};
ghost use Rattle.cron_units.specs.Nearest.{LiesFrom, Precedes};
ghost use Rattle.cron_moments.specs.Calendar.{first_month, months_end};
ghost use Rattle.cron_time.specs.Search.Inner.LeapDays.{WantsLeapDays};
ghost use Rattle.cron_time.specs.Search.Inner.Numbers.{beyond};

use cron_bits::words::Words;
use cron_units::fields::ScheduleFields;
use cron_units::time_unit::layout::{bits, bits_of_days};
use cron_units::way::Way;

/// Whether the set of months has none but February, and the set of days has no day from 1 to 28,
/// nor the last day of the month.
#[inline(always)]
pub(crate) fn wants_leap_days(fields: &ScheduleFields) -> bool
    ensures { result ≡ true → WantsLeapDays fields.now }
{
    let others = bits(&fields.months).without(1);
    if others != 0 {
        return false;
    }
    let early = bits_of_days(&fields.days_of_month).below(28);
    if early != 0 {
        return false;
    }
    !fields.days_of_month.last_day()
}

/// The nearest February past `month` in a year that 4 divides.
#[inline(always)]
pub(crate) fn leap_february(way: Way, month: u32) -> u32
    requires { (first_month ≤ month) × (month < months_end) }
    ensures lies { LiesFrom way (beyond way month) result }
    ensures nearest { (k : ℕ) → LiesFrom way (beyond way month) k → Precedes way k result
        → k % 48 ≡ 1 → ⊥ }
    ensures bound { result < 30_000 }
{
    match way {
        Way::Ahead => (month + 47) / 48 * 48 + 1,
        Way::Back => (month - 2) / 48 * 48 + 1,
    }
}
