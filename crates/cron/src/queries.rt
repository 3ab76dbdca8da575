//! Single searches on a timeline.

ghost use Rattle.std.specs.Prelude.{◌≡◌, ◌+◌, ◌<◌, ◌≤◌, MatchOption, length, option_map, take};
ghost use Rattle.cron_units.specs.declared.way.Way.TheVariants.{Ahead, Back};
ghost use Rattle.jiff.specs.Words.{plain_zone};
ghost use Rattle.jiff_core.specs.DateTime.{civil_seconds};
ghost use Rattle.cron_time.specs.Search.Counts.{candidates, conversions, days_of, gap_matches};
ghost use Rattle.cron_moments.specs.Found.{found_items, second_of};
ghost use Rattle.cron_time.specs.Search.{IsFound};
ghost use Rattle.cron_time.specs.Search.Surveys.{days_again, standing_from, surveyed, surveyed_days};
ghost use Rattle.cron_time.specs.Search.Times.{IsNearestTime, time_of_parts};

use crate::schedule::Schedule;
use cron_moments::civil::civil_number;
pub use cron_moments::readings::Found;
pub use cron_time::search::answers::{Search, Survey, TimeFound};
use cron_time::search::search;
use cron_time::search::survey::survey;
use cron_time::search::times::nearest_time;
use cron_units::time_unit::Ordinal;
use cron_units::way::Way;
use jiff::civil::DateTime;
use jiff::tz::TimeZone;

impl Schedule {
    /// Finds the least civil second at or after `from` that matches and has a reading in the zone.
    /// It returns the one or two readings, the earlier first. A fraction of a second of `from` is
    /// dropped. The search goes field by field: it tests no second of a year, a month or a day that
    /// doesn't match.
    pub fn first_at_or_after(&self, from: DateTime, zone: &TimeZone<'_>) -> Search
        ensures found { IsFound Ahead self.now.sets (plain_zone zone.now) (civil_seconds from)
            (option_map found_items result.found) }
        ensures days { result.days
            ≡ days_of Ahead self.now.sets (civil_seconds from) (second_of result.found) }
        ensures conversions { result.conversions ≡ conversions Ahead self.now.sets
            (plain_zone zone.now) (civil_seconds from) (second_of result.found) }
    {
        search(self.fields(), zone, Way::Ahead, civil_number(from))
    }

    /// Finds the greatest civil second at or before `from` that matches and has a reading in the
    /// zone.
    pub fn last_at_or_before(&self, from: DateTime, zone: &TimeZone<'_>) -> Search
        ensures found { IsFound Back self.now.sets (plain_zone zone.now) (civil_seconds from)
            (option_map found_items result.found) }
        ensures days { result.days
            ≡ days_of Back self.now.sets (civil_seconds from) (second_of result.found) }
        ensures conversions { result.conversions ≡ conversions Back self.now.sets
            (plain_zone zone.now) (civil_seconds from) (second_of result.found) }
    {
        search(self.fields(), zone, Way::Back, civil_number(from))
    }

    /// Finds the first `count` civil seconds at or after `from` that match and have a reading, or
    /// all if there are fewer. It searches ahead once for each. It returns how many it found and
    /// the sums of both counts. If one search ends and the next begins on the same day, that day is
    /// counted twice. So the days are at most the candidates plus one for each second found.
    pub fn survey(&self, from: DateTime, zone: &TimeZone<'_>, count: u32) -> Survey
        ensures seconds { result.seconds ≡ length
            (take count (standing_from self.now.sets (plain_zone zone.now) (civil_seconds from))) }
        ensures conversions { result.conversions
            ≡ gap_matches self.now.sets (plain_zone zone.now)
            (surveyed self.now.sets (plain_zone zone.now) (civil_seconds from) count)
            + result.seconds }
        ensures days { result.days
            ≡ candidates self.now.sets
            (surveyed_days self.now.sets (plain_zone zone.now) (civil_seconds from) count)
            + days_again self.now.sets (plain_zone zone.now) (civil_seconds from) count }
    {
        survey(self.fields(), zone, civil_number(from), count)
    }

    /// Finds the least time of day at or after the given one whose hour, minute and second are in
    /// their sets. `hour` is at most 23, `minute` and `second` at most 59. `questions` counts the
    /// look-ups of a neighbouring member in a set, and those of a least member too.
    pub fn first_time(&self, hour: Ordinal, minute: Ordinal, second: Ordinal) -> TimeFound
        requires hour { hour < 24 }
        requires minute { minute < 60 }
        requires second { second < 60 }
        ensures time { IsNearestTime Ahead self.now.sets (time_of_parts (hour, minute, second))
            (option_map time_of_parts result.time) }
        ensures questions { MatchOption result.time
            ((1 ≤ result.questions) × (result.questions ≤ 7))
            (λ time. (3 ≤ result.questions) × (result.questions ≤ 7)) }
    {
        nearest_time(self.filled_fields(), Way::Ahead, hour, minute, second)
    }

    /// Finds the greatest time of day at or before the given one whose hour, minute and second are
    /// in their sets. `hour` is at most 23, `minute` and `second` at most 59.
    pub fn last_time(&self, hour: Ordinal, minute: Ordinal, second: Ordinal) -> TimeFound
        requires hour { hour < 24 }
        requires minute { minute < 60 }
        requires second { second < 60 }
        ensures time { IsNearestTime Back self.now.sets (time_of_parts (hour, minute, second))
            (option_map time_of_parts result.time) }
        ensures questions { MatchOption result.time
            ((1 ≤ result.questions) × (result.questions ≤ 7))
            (λ time. (3 ≤ result.questions) × (result.questions ≤ 7)) }
    {
        nearest_time(self.filled_fields(), Way::Back, hour, minute, second)
    }
}
