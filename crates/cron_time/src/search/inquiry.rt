//! Inquiries: searches that count the dates that they make and the readings that they look up.
ghost use Rattle.std.specs.Prelude.{◌≡◌, ◌^◌, ◌<◌, ◌≤◌, MatchOption, true, false};
ghost use Rattle.jiff.specs.Words.{plain_zone};
ghost use Rattle.cron_units.specs.Units.{contains};
ghost use Rattle.cron_moments.specs.Civil.{seconds_in_range};
ghost use Rattle.cron_moments.specs.CivilDates.{date_numbered};
ghost use Rattle.cron_moments.specs.Found.{items_if_any};
ghost use Rattle.cron_time.specs.Search.Inner.Inquired.{Inquired, unasked, one_day, one_conversion};
ghost use Rattle.cron_moments.specs.Calendar.{day_number, length_of, first_month, months_end};
ghost use Rattle.cron_moments.specs.Calendar.{weekday_number};
ghost use Rattle.cron_moments.specs.Readings.{readings};
ghost use Rattle.cron_clocks.specs.Steady.{IsKnown};

use crate::search::members::Members;
use crate::search::reading::readings_within;
use cron_clocks::stretch::Stretch;
use cron_moments::calendar::{KnownMonth, weekday_of};
use cron_moments::readings::Found;
use cron_units::fields::ScheduleFields;
use jiff::tz::TimeZone;
use std::marker::Model;

/// The sets and the zone of a counted search, and its counts. No two public calls share an inquiry.
/// Only its methods make dates and look up readings, and each raises its own count by one. It keeps
/// the month of the date that was made last. It also keeps a stretch, which may be empty: civil
/// seconds that have the same offsets as the one that was looked up last.
#[derive(Drop)]
pub(crate) struct Inquiry<'a> {
    fields: &'a ScheduleFields,
    zone: &'a TimeZone<'a>,
    month: KnownMonth,
    stretch: Stretch,
    days: u64,
    conversions: u64,
}

impl<'a> Model for Inquiry<'a> {
    ghost use Rattle.jiff.specs.Words.{plain_zone};
    ghost use Rattle.cron_time.specs.Search.Inner.Inquired.{Inquired};

    ghost Value = { Inquired };

    ghost view = { λ i. record {
      sets = i.fields.now;
      zone = plain_zone i.zone.now;
      days = i.days;
      conversions = i.conversions;
    } };

    ghost use Rattle.cron_clocks.specs.Steady.{IsKnown};

    ghost invariant = { λ i. IsKnown (plain_zone i.zone.now) i.stretch };
}

impl<'a> Inquiry<'a> {
    /// An inquiry whose counts are 0.
    #[inline(always)]
    pub(crate) fn new(fields: &'a ScheduleFields, zone: &'a TimeZone<'a>) -> Inquiry<'a>
        ensures { result ≡ unasked fields.now (plain_zone zone.now) }
    {
        Inquiry {
            fields,
            zone,
            month: KnownMonth::january_1970(),
            stretch: Stretch::empty(),
            days: 0,
            conversions: 0,
        }
    }

    /// The sets, for looking up their members. That isn't counted.
    #[inline(always)]
    pub(crate) fn members(&self) -> Members<'a>
        ensures { result ≡ self.now.sets }
    {
        Members::of(self.fields)
    }

    /// The month of the date that was made last, at first January 1970.
    #[inline(always)]
    pub(crate) fn month(&self) -> KnownMonth {
        self.month
    }

    /// The number of dates that were made and tested.
    pub(crate) fn days(&self) -> u64
        ensures { result ≡ self.now.days }
    {
        self.days
    }

    /// The number of civil seconds whose readings were looked up.
    pub(crate) fn conversions(&self) -> u64
        ensures { result ≡ self.now.conversions }
    {
        self.conversions
    }

    /// Makes and counts the date of `day` of `month`, which is numbered from January of the year 0.
    /// Returns its number of days since 1970-01-01, or `None` if its weekday isn't in its set.
    #[inline(always)]
    pub(crate) fn matching_day(&mut self, month: u32, day: u32) -> Option<u32>
        requires month { (first_month ≤ month) × (month < months_end) }
        requires day { (1 ≤ day) × (day ≤ length_of month) }
        requires room { self.old.days < 2 ^ 63 }
        ensures matches { MatchOption result
            (contains self.old.sets.days_of_week
            (weekday_number (date_numbered (day_number month day)).0) ≡ false)
            (λ n. (n ≡ day_number month day)
            × (contains self.old.sets.days_of_week
            (weekday_number (date_numbered (day_number month day)).0) ≡ true)) }
        ensures counted { self.new ≡ one_day self.old }
    {
        self.days += 1;
        self.month = self.month.or_numbered(month);
        let number = self.month.number_of(day);
        if !self.fields.includes_weekday(weekday_of(number)) {
            return None;
        }
        Some(number)
    }

    /// Looks up the readings of a civil second, in the known stretch or by the zone, and counts the
    /// look-up. `None` in a gap.
    #[inline(always)]
    pub(crate) fn readings(&mut self, second: u32) -> Option<Found>
        requires in_range { second < seconds_in_range }
        requires room { self.old.conversions < 2 ^ 63 }
        ensures readings { items_if_any result ≡ readings self.old.zone second }
        ensures counted { self.new ≡ one_conversion self.old }
    {
        self.conversions += 1;
        readings_within(self.zone, second, &mut self.stretch)
    }
}
