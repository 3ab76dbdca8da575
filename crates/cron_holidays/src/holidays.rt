//! Files of holidays.
ghost use Rattle.std.specs.Prelude.{◌≡◌, MatchResult, IfOk, map};
ghost use Rattle.cron_holidays.specs.Dates.{date_at};
ghost use Rattle.cron_holidays.specs.Faults.{Refuses};
ghost use Rattle.cron_holidays.specs.Holidays.{AreHolidays, IsHolidayFault, days_in, is_calendar};
ghost use Rattle.cron_holidays.specs.Views.{line_view};

use crate::calendar::calendar_days;
use crate::dates::date_at;
use crate::fault::HolidayFault;
use crate::lines::{Line, lines_in};
use crate::list::days_listed;
use crate::properties::is_word;
use jiff::civil::Date;
use std::alloc::{AllocError, Global};

/// Returns true if the first line begins a calendar.
fn is_calendar(lines: &[Line<'_>]) -> bool
    ensures { result ≡ is_calendar (map line_view lines.now) }
{
    match lines.first() {
        Some(line) => is_word(line.text, b"BEGIN:VCALENDAR".as_slice()),
        None => false,
    }
}

/// The days of the lines, which aren't blank.
fn days_in(alloc: Global, lines: &[Line<'_>]) -> Result<Vec<u16>, HolidayFault>
    ensures { MatchResult result
        (λ days. days_in (map line_view lines.now) ≡ Ok days.items)
        (Refuses (days_in (map line_view lines.now))) }
{
    if is_calendar(lines) {
        calendar_days(alloc, lines)
    } else {
        days_listed(alloc, lines)
    }
}

fn dates_of(alloc: Global, days: &[u16]) -> Result<Vec<Date>, AllocError>
    ensures { IfOk result (λ dates. dates.items ≡ map date_at days.now) }
{
    days.iter().map(|day| date_at(*day)).collect(alloc)
}

/// The holidays of a file, in its order. It is an iCalendar file if the first line that isn't blank
/// is `BEGIN:VCALENDAR`, and otherwise a list of dates. A day that is named several times comes
/// several times. It fails at the first line that is refused, or if memory runs out.
pub fn read_holidays(alloc: Global, file: &[u8]) -> Result<Vec<Date>, HolidayFault>
    ensures { MatchResult result
        (λ dates. AreHolidays file.now dates.items) (IsHolidayFault file.now) }
{
    let lines = match lines_in(alloc, file) {
        Ok(lines) => lines,
        Err(_) => return Err(HolidayFault::OutOfMemory),
    };
    let days = days_in(alloc, &lines)?;
    Ok(dates_of(alloc, &days)?)
}
