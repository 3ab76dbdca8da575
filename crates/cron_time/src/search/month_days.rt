//! The days of a month whose dates match, a bit for each.
//!
//! Walks and calls by instants go by these bits. The public searches make and test each date by
//! itself, since they promise how many dates they make.

ghost use Rattle.std.specs.Prelude.{◌≡◌, ℕ, ◌+◌, ◌/◌, ◌%◌, ◌<◌, ◌≤◌, pos, IfSome, MatchOption, option_map, true, false};
ghost use Rattle.jiff.specs.Words.{plain_zone};
ghost use Rattle.cron_bits.specs.Words.{has_bit};
ghost use Rattle.cron_units.specs.Nearest.{IsNearest, IsNearestAt, LiesFrom};
ghost use Rattle.cron_units.specs.Sets.{Sets};
ghost use Rattle.cron_units.specs.Units.{contains};
ghost use Rattle.cron_moments.specs.Calendar.{day_number, first_month, months_end, rank, rank_of_date};
ghost use Rattle.cron_moments.specs.Civil.{days_in_range};
ghost use Rattle.cron_moments.specs.CivilDates.{date_numbered};
ghost use Rattle.cron_time.specs.Matches.{matches_date};
ghost use Rattle.cron_time.specs.Search.Inner.Days.{day_rank, IsInRange};
ghost use Rattle.cron_time.specs.Search.Inner.Questions.{outermost};
ghost use Rattle.cron_time.specs.Search.Inner.MonthDays.{AreDaysOf, AreMonths, ComesTo, IsRestBare, KnowsDays, LeadsOn, matches_ranked, matching_day};
ghost use Rattle.cron_time.specs.Search.Inner.Numbers.{beyond, beyond_block, matches_day, matches_month, way_of};

use crate::matching::includes_each_date;
use crate::search::days::Day;
use crate::search::leap_days::{leap_february, wants_leap_days};
use crate::search::members::Members;
use crate::search::months::{Months, month_past_year};
use crate::search::neighbours::Neighbours;
use crate::search::ways::{entry, past_below};
use cron_bits::words::Words;
use cron_moments::calendar::{KnownMonth, KnownYear, SHORTEST, length_of, weekday_of};
use cron_moments::civil::DAYS;
use cron_units::fields::ScheduleFields;
use cron_units::time_unit::TimeUnitSpec;
use cron_units::time_unit::layout::{bits, bits_of_days};
use cron_units::way::Way;

/// A month, and a bit for each of its days, the first one for the first day. A bit is 1 if the date
/// matches. If no bit is 1, the days may not have been looked up.
#[derive(Clone, Copy)]
pub struct MonthDays {
    month: KnownMonth,
    days: u64,
}

// The days of `month` that lie in their set: by their numbers, and the last one if the set has it.
// The length of the month matters only for numbers above 28 and for the last day.
#[inline(always)]
fn days_in_set(fields: &ScheduleFields, month: u32) -> u64
    requires { month < months_end }
    ensures { (k : ℕ) → has_bit result k ≡ matches_day fields.now month (k + 1) }
{
    let numbered = bits_of_days(&fields.days_of_month);
    if fields.days_of_month.last_day() {
        let last = length_of(month);
        return numbered.below(last).with(last - 1);
    }
    if numbered.at_least(SHORTEST) == 0 {
        return numbered;
    }
    numbered.below(length_of(month))
}

// The days from `day` on, a bit for each: 1 if the day of the week lies in its set. Only the first
// 32 bits have a meaning.
#[inline(always)]
fn weekdays_from(fields: &ScheduleFields, day: u32) -> u64
    requires { day < days_in_range }
    ensures { (k : ℕ) → k < 32
        → has_bit result k ≡ contains fields.now.days_of_week ((day + k + 4) % 7 + 1) }
{
    let week = bits(&fields.days_of_week).below(7);
    let two = week | week << 7;
    let four = two | two << 14;
    let eight = four | four << 28;
    eight >> (weekday_of(day) - 1)
}

// The nearest month from `month` on whose year and month of the year lie in the sets. Months are
// numbered from January of the year 0.
#[inline(always)]
fn wanted_month(fields: &ScheduleFields, way: Way, month: u32) -> Option<u32>
    requires { month < months_end }
    ensures nearest { IsNearest way (matches_month fields.now) (pos month) result }
    ensures bound { IfSome result (λ n. (first_month ≤ n) × (n < months_end)) }
{
    let members = Members::of(fields);
    Months::nearest(&members, way, month)
}

// The nearest bit that is 1, from `place` on.
#[inline(always)]
fn bit_from(way: Way, word: u64, place: u32) -> Option<u32>
    requires { place < 100 }
    ensures nearest { IsNearest way (has_bit word) (pos place) result }
    ensures bound { IfSome result (λ n. n < 64) }
{
    match way {
        Way::Ahead => word.at_least(place).lowest(),
        Way::Back => word.below(place + 1).highest(),
    }
}

// The nearest bit that is 1, past `place`.
#[inline(always)]
fn bit_past(way: Way, word: u64, place: u32) -> Option<u32>
    requires { place < 64 }
    ensures { IsNearest way (has_bit word) (beyond way place) result }
{
    match way {
        Way::Ahead => word.at_least(place + 1).lowest(),
        Way::Back => word.below(place).highest(),
    }
}

// The first bit that is 1, in the direction `way`.
#[inline(always)]
fn first_bit(way: Way, word: u64) -> Option<u32>
    ensures { IsNearest way (has_bit word) (pos (outermost way 100)) result }
{
    match way {
        Way::Ahead => word.lowest(),
        Way::Back => word.highest(),
    }
}

// The months of a year that lie in the set, a bit for each, the first one for January.
#[inline(always)]
fn months_of_year(fields: &ScheduleFields) -> u64
    ensures { AreMonths fields.now result }
{
    bits(&fields.months).below(12)
}

// The next month that may have a matching day, in the years past the year of `month`. In that year
// no month past `month` has one. If only 29 February can match, this skips the years that 4 doesn't
// divide. `None` if no such month is left.
#[inline(always)]
fn month_in_year_past(fields: &ScheduleFields, way: Way, month: u32) -> Option<u32>
    requires range { (first_month ≤ month) × (month < months_end) }
    requires rest { IsRestBare way fields.now (beyond way month) (month / 12) }
    ensures leads { LeadsOn way fields.now month result }
    ensures bound { IfSome result (λ n. (first_month ≤ n) × (n < months_end)) }
{
    let members = Members::of(fields);
    if wants_leap_days(fields) {
        return Months::nearest(&members, way, leap_february(way, month));
    }
    month_past_year(&members, way, month / 12)
}

// The next month that may have a matching day, past `month`, which lies in the sets. It is the next
// month of its year in the set, or one of the years past it. `None` if there is none.
#[inline(always)]
fn next_month(fields: &ScheduleFields, way: Way, month: u32) -> Option<u32>
    requires range { (first_month ≤ month) × (month < months_end) }
    requires matching { matches_month fields.now month ≡ true }
    ensures leads { LeadsOn way fields.now month result }
    ensures bound { IfSome result (λ n. (first_month ≤ n) × (n < months_end)) }
{
    if let Some(place) = bit_past(way, months_of_year(fields), month % 12) {
        return Some(month / 12 * 12 + place);
    }
    month_in_year_past(fields, way, month)
}

impl MonthDays {
    /// A month with none of its days known.
    #[inline(always)]
    pub fn unknown(month: KnownMonth) -> MonthDays
        ensures { (s : Sets) → KnowsDays s result }
    {
        MonthDays { month, days: 0 }
    }

    // The matching days of `month`, whose year and month lie in their sets.
    #[inline(always)]
    fn of(fields: &ScheduleFields, month: KnownMonth) -> MonthDays
        ensures month { result.month ≡ month }
        ensures days { AreDaysOf fields.now result }
    {
        let days = days_in_set(fields, month.number()) & weekdays_from(fields, month.first_day());
        MonthDays { month, days }
    }

    // The matching days of the first month that has one, from `from` on within its year. With them
    // is the place, from 0, of the first of these days in the direction `way`. `None` if no month
    // has one.
    #[inline(always)]
    fn in_rest_of_year(fields: &ScheduleFields, way: Way, from: u32) -> Option<(MonthDays, u32)>
        requires range { (first_month ≤ from) × (from < months_end) }
        requires matching { matches_month fields.now from ≡ true }
        ensures months { MatchOption result
            (IsRestBare way fields.now (pos from) (from / 12))
            (λ there. ComesTo way fields.now from there.0.month) }
        ensures days { IfSome result (λ there. AreDaysOf fields.now there.0) }
        ensures first { IfSome result (λ there. IsNearestAt way
            (has_bit there.0.days)
            (pos (outermost way 100))
            there.1) }
    {
        let year = KnownYear::of_number(from / 12);
        let months = months_of_year(fields);
        let mut next = Some(from % 12);
        while let Some(place) = next {
            let there = MonthDays::of(fields, year.month(place));
            if let Some(first) = first_bit(way, there.days) {
                return Some((there, first));
            }
            next = bit_past(way, months, place);
        }
        None
    }

    // The place of `day` among the bits, or `None` if its bit isn't 1.
    #[inline(always)]
    fn place_of(&self, day: u32) -> Option<u32>
        ensures set { IfSome result
            (λ k. (has_bit self.now.days k ≡ true) × (day ≡ day_number self.now.month 1 + k)) }
        ensures month { (first_month ≤ self.now.month) × (self.now.month < months_end) }
    {
        let first = self.month.first_day();
        if day < first || !self.days.contains(day - first) {
            return None;
        }
        Some(day - first)
    }

    // Sets `self` to the matching days of the month of `day`, and returns the place of `day` in it,
    // from 0. The date of `day` matches.
    #[inline(never)]
    fn look_up(&mut self, fields: &ScheduleFields, day: u32) -> u32
        requires in_range { day < days_in_range }
        requires matching { matches_date fields.now (date_numbered day).0 ≡ true }
        ensures place { rank self.new.month (result + 1) ≡ rank_of_date (date_numbered day).0 }
        ensures bound { result < 31 }
        ensures month { matches_month fields.now self.new.month ≡ true }
        ensures days { AreDaysOf fields.now self.new }
    {
        let (month, day_of_month) = self.month.month_and_day(day);
        *self = MonthDays::of(fields, self.month.or_numbered(month));
        day_of_month - 1
    }

    // The place, from 0, of `day` in its month. The date of `day` matches. The matching days of
    // that month are known from then on.
    #[inline(always)]
    fn enter(&mut self, fields: &ScheduleFields, day: u32) -> u32
        requires in_range { day < days_in_range }
        requires matching { matches_date fields.now (date_numbered day).0 ≡ true }
        requires known { KnowsDays fields.now self.old }
        ensures place { rank self.new.month (result + 1) ≡ rank_of_date (date_numbered day).0 }
        ensures bound { result < 31 }
        ensures month { matches_month fields.now self.new.month ≡ true }
        ensures days { AreDaysOf fields.now self.new }
    {
        match self.place_of(day) {
            Some(place) => place,
            None => self.look_up(fields, day),
        }
    }

    // The first matching day of the months past `month`, which lies in the sets, or `None`. Sets
    // `self` to the days of its month.
    #[inline(always)]
    fn months_past(&mut self, fields: &ScheduleFields, way: Way, month: u32) -> Option<Day>
        requires range { (first_month ≤ month) × (month < months_end) }
        requires matching { matches_month fields.now month ≡ true }
        requires known { KnowsDays fields.now self.old }
        ensures nearest { IsNearest way
            (matches_ranked fields.now)
            (beyond_block way 100 month)
            (option_map day_rank result) }
        ensures range { IfSome result (λ d. IsInRange d × (self.new.month ≡ d.month)) }
        ensures known { KnowsDays fields.now self.new }
    {
        let mut next = next_month(fields, way, month);
        while let Some(month) = next {
            if let Some((there, first)) = MonthDays::in_rest_of_year(fields, way, month) {
                *self = there;
                return Some(Day {
                    month: self.month.number(),
                    day: first + 1,
                });
            }
            next = month_in_year_past(fields, way, month);
        }
        None
    }

    // The nearest matching day past the one at `place` of the month, or `None`. Sets `self` to the
    // days of its month.
    #[inline(always)]
    fn ranked_past(&mut self, fields: &ScheduleFields, way: Way, place: u32) -> Option<Day>
        requires bound { place < 31 }
        requires month { matches_month fields.now self.old.month ≡ true }
        requires days { AreDaysOf fields.now self.old }
        ensures nearest { IsNearest way
            (matches_ranked fields.now)
            (beyond way (rank self.old.month (place + 1)))
            (option_map day_rank result) }
        ensures range { IfSome result (λ d. IsInRange d × (self.new.month ≡ d.month)) }
        ensures known { KnowsDays fields.now self.new }
    {
        if let Some(next) = bit_past(way, self.days, place) {
            return Some(Day {
                month: self.month.number(),
                day: next + 1,
            });
        }
        self.months_past(fields, way, self.month.number())
    }

    // The nearest matching day from `from` on, or `None`. Sets `self` to the days of its month.
    #[inline(always)]
    fn ranked_from(&mut self, fields: &ScheduleFields, way: Way, from: Day) -> Option<Day>
        requires in_range { IsInRange from }
        requires known { KnowsDays fields.now self.old }
        ensures nearest { IsNearest way
            (matches_ranked fields.now)
            (pos (day_rank from))
            (option_map day_rank result) }
        ensures range { IfSome result (λ d. IsInRange d × (self.new.month ≡ d.month)) }
        ensures known { KnowsDays fields.now self.new }
    {
        let month = wanted_month(fields, way, from.month)?;
        *self = MonthDays::of(fields, self.month.or_numbered(month));
        let start = entry(way, 100, from.month, from.day, month);
        if let Some(day) = bit_from(way, self.days << 1, start) {
            return Some(Day { month, day });
        }
        self.months_past(fields, way, month)
    }

    /// The nearest day from `day` on whose date matches, or `None`. Days are counted from
    /// 1970-01-01.
    #[inline(always)]
    pub(crate) fn day_from(&mut self, fields: &ScheduleFields, way: Way, day: u32) -> Option<u32>
        requires in_range { day < days_in_range }
        requires known { KnowsDays fields.now self.old }
        ensures nearest { IsNearest way (matching_day fields.now) (pos day) result }
        ensures known { KnowsDays fields.now self.new }
    {
        if includes_each_date(fields) {
            return Some(day);
        }
        let (month, day) = self.month.month_and_day(day);
        let next = self.ranked_from(fields, way, Day { month, day })?;
        Some(self.month.number_of(next.day))
    }

    /// The nearest day past `day` whose date matches, or `None`. The date of `day` matches too.
    #[inline(always)]
    pub(crate) fn day_past(&mut self, fields: &ScheduleFields, way: Way, day: u32) -> Option<u32>
        requires in_range { day < days_in_range }
        requires matching { matches_date fields.now (date_numbered day).0 ≡ true }
        requires known { KnowsDays fields.now self.old }
        ensures nearest { IsNearest way (matching_day fields.now) (beyond way day) result }
        ensures known { KnowsDays fields.now self.new }
    {
        if includes_each_date(fields) {
            return past_below(way, day, DAYS);
        }
        let place = self.enter(fields, day);
        let next = self.ranked_past(fields, way, place)?;
        Some(self.month.number_of(next.day))
    }
}
