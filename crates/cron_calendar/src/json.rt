//! Days with their numbers of fires, as rows of JSON.
ghost use Rattle.std.specs.Prelude.{◌≡◌, ◌+◌, ◌++◌, ◌<◌, ◌≤◌, OnOk, length};
ghost use Rattle.cron_moments.specs.Civil.{days_in_range};
ghost use Rattle.cron_calendar.specs.Json.{day_object, day_objects};

use crate::html::pieces::{push_date, push_number, push_text};
use cron_moments::civil::{SECONDS_PER_DAY, civil_of};
use std::alloc::AllocError;

// Appends the row of a day, numbered from 1970-01-01, with its number of fires.
fn push_object(text: &mut Vec<u8>, day: u32, count: u32) -> Result<(), AllocError>
    requires { day < days_in_range }
    ensures { OnOk result (text.new.items ≡ text.old.items ++ day_object day count) }
{
    push_text(text, "{\"day\":\"")?;
    push_date(text, civil_of(day * SECONDS_PER_DAY).date())?;
    push_text(text, "\",\"fires\":")?;
    push_number(text, count)?;
    push_text(text, "}\n")?;
    Ok(())
}

/// Appends a row for each of the days from day `first` on, counted from 1970-01-01. `counts` are
/// their numbers of fires.
pub(crate) fn push_objects(text: &mut Vec<u8>, first: u32, counts: &[u32]) -> Result<(), AllocError>
    requires { first + length counts.now ≤ days_in_range }
    ensures { OnOk result (text.new.items ≡ text.old.items ++ day_objects first counts.now) }
{
    for place in 0..counts.len() {
        push_object(text, first + place as u32, counts[place])?;
    }
    Ok(())
}
