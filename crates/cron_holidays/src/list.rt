//! Lists of dates.
ghost use Rattle.std.specs.Prelude.{◌≡◌, Ok, Err, MatchResult, map};
ghost use Rattle.cron_holidays.specs.Lists.{days_listed, is_over, listed_in, listed_on, with_listed};
ghost use Rattle.cron_holidays.specs.Faults.{Refuses};
ghost use Rattle.cron_holidays.specs.Views.{line_view};

use crate::dates::day_of_dashed;
use crate::fault::{HolidayFault, Reason, Refused};
use crate::lines::{Line, behind_blanks};
use cron_moments::civil::DAYS;
use std::alloc::Global;

/// The length of a date in the form `YYYY-MM-DD`.
const DATE_LEN: usize = 10;

/// Returns true if `text` has only spaces, tabs and a comment, or nothing.
fn is_over(text: &[u8]) -> bool
    ensures { result ≡ is_over text.now }
{
    match behind_blanks(text).first() {
        Some(byte) => *byte == b'#',
        None => true,
    }
}

/// Reads the date of a line, if it has one.
fn listed_in(text: &[u8]) -> Result<Option<u16>, Reason>
    ensures { MatchResult result
        (λ day. listed_in text.now ≡ Ok day)
        (λ reason. listed_in text.now ≡ Err reason) }
{
    if is_over(text) {
        return Ok(None);
    }
    let rest = behind_blanks(text);
    if rest.len() < DATE_LEN || !is_over(&rest[DATE_LEN..]) {
        return Err(Reason::NoDate);
    }
    match day_of_dashed(DAYS as u16, &rest[..DATE_LEN]) {
        Ok(day) => Ok(Some(day)),
        Err(reason) => Err(reason),
    }
}

/// Reads the date of a line, if it has one.
fn listed_on(line: &Line<'_>) -> Result<Option<u16>, Refused>
    ensures { MatchResult result
        (λ day. listed_on (line_view line.now) ≡ Ok day)
        (λ refused. listed_on (line_view line.now) ≡ Err refused) }
{
    match listed_in(line.text) {
        Ok(day) => Ok(day),
        Err(reason) => Err(Refused {
            line: line.number,
            reason,
        }),
    }
}

/// Appends the day of a line, if it has one.
fn push_listed(days: &mut Vec<u16>, line: &Line<'_>) -> Result<(), HolidayFault>
    ensures { MatchResult result
        (λ _. with_listed days.old.items (line_view line.now) ≡ Ok days.new.items)
        (Refuses (with_listed days.old.items (line_view line.now))) }
{
    match listed_on(line) {
        Ok(Some(day)) => {
            days.push(day)?;
            Ok(())
        }
        Ok(None) => Ok(()),
        Err(refused) => Err(HolidayFault::Refused(refused)),
    }
}

/// Reads a list of dates into the numbers of days since 1970-01-01.
pub(crate) fn days_listed(alloc: Global, lines: &[Line<'_>]) -> Result<Vec<u16>, HolidayFault>
    ensures { MatchResult result
        (λ days. days_listed (map line_view lines.now) ≡ Ok days.items)
        (Refuses (days_listed (map line_view lines.now))) }
{
    let mut days = Vec::new(alloc);
    for line in lines {
        push_listed(&mut days, line)?;
    }
    Ok(days)
}
