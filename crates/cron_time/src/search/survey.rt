//! Surveys: searches ahead, one after the other, with their counts added up.
ghost use Rattle.std.specs.Prelude.{◌≡◌, ◌+◌, length, take};
ghost use Rattle.jiff.specs.Words.{plain_zone};
ghost use Rattle.cron_time.specs.Search.Counts.{candidates, gap_matches};
ghost use Rattle.cron_time.specs.Search.Surveys.{days_again, standing_from, surveyed, surveyed_days};

use crate::search::answers::Survey;
use crate::search::inquiry::Inquiry;
use crate::search::search_from;
use crate::search::ways::beyond;
use cron_moments::moment::civil_second;
use cron_units::fields::ScheduleFields;
use cron_units::way::Way;
use jiff::tz::TimeZone;

// The survey that found `seconds` civil seconds, with the counts of the inquiry.
fn survey_of(inquiry: &Inquiry<'_>, seconds: u32) -> Survey
    ensures { result ≡ record {
      seconds = seconds;
      days = inquiry.now.days;
      conversions = inquiry.now.conversions;
    } }
{
    Survey {
        seconds,
        days: inquiry.days(),
        conversions: inquiry.conversions(),
    }
}

/// Searches ahead from the number `from`, then from the second after each answer, until `count` are
/// found or a search finds none. Returns how many it found, and the counts. If an answer isn't at
/// 23:59:59 the next search looks at its day again.
pub fn survey(fields: &ScheduleFields, zone: &TimeZone<'_>, from: i64, count: u32) -> Survey
    ensures seconds { result.seconds
        ≡ length (take count (standing_from fields.now (plain_zone zone.now) from)) }
    ensures conversions { result.conversions
        ≡ gap_matches fields.now
        (plain_zone zone.now)
        (surveyed fields.now (plain_zone zone.now) from count)
        + result.seconds }
    ensures days { result.days
        ≡ candidates fields.now (surveyed_days fields.now (plain_zone zone.now) from count)
        + days_again fields.now (plain_zone zone.now) from count }
{
    let mut inquiry = Inquiry::new(fields, zone);
    let mut next = from;
    let mut seconds = 0;
    while seconds < count {
        match search_from(&mut inquiry, Way::Ahead, next) {
            Some(found) => {
                seconds += 1;
                next = beyond(Way::Ahead, civil_second(&found.first));
            }
            None => return survey_of(&inquiry, seconds),
        }
    }
    survey_of(&inquiry, seconds)
}
