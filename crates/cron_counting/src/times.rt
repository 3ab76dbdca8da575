//! The times of day of schedules.
ghost use Rattle.std.specs.Prelude.{◌≡◌, ◌&&◌, ◌∷◌, [], ℕ, OnOk};
ghost use Rattle.std.specs.List.{list_any};
ghost use Rattle.cron_time.specs.Matches.{matches_date};
ghost use Rattle.cron_counting.specs.Inner.Times.{fits_any, has_time};

use cron_time::matching::includes_date;
use cron_units::fields::ScheduleFields;
use cron_units::time_unit::layout::bits;
use jiff::civil::Date;
use std::alloc::AllocError;

/// The hours, minutes and seconds of a schedule, a bit for each.
#[derive(Clone, Copy)]
pub(crate) struct Times {
    pub(crate) hours: u64,
    pub(crate) minutes: u64,
    pub(crate) seconds: u64,
}

// The times of day of a schedule.
fn times_of(fields: &ScheduleFields) -> Times
    ensures { (t : ℕ) → fits_any (result ∷ []) t ≡ has_time fields.now t }
{
    Times {
        hours: bits(&fields.hours),
        minutes: bits(&fields.minutes),
        seconds: bits(&fields.seconds),
    }
}

/// Replaces `times` by the times of day of each schedule that matches `date`.
pub(crate) fn gather(
    schedules: &[ScheduleFields],
    date: Date,
    times: &mut Vec<Times>,
) -> Result<(), AllocError>
    ensures { OnOk result ((t : ℕ) → fits_any times.new.items t
        ≡ list_any (λ s. matches_date s date && has_time s t) schedules.now) }
{
    times.clear();
    for fields in schedules {
        if includes_date(fields, date) {
            times.push(times_of(fields))?;
        }
    }
    Ok(())
}
