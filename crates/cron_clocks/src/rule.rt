//! The transitions of a rule in a year, and the civil seconds between them.
//!
//! A rule has an offset of standard time and one of the saving, the part of the year that begins at
//! the one transition and ends at the other. Days are numbered from 1970-01-01, and civil seconds
//! from 1970-01-01 00:00:00.
ghost use Rattle.std.specs.Prelude.{◌≡◌, ◌≤◌, ◌<◌, ◌+◌, ◌-◌, ◌%◌, pos, neg_ℤ, ◌+ℤ◌, ◌-ℤ◌, ◌*ℤ◌, ◌≤ℤ◌, ◌<ℤ◌, IsTrue, Some, true};
ghost use Rattle.jiff_core.specs.Calendar.{IsYear, IsBetween, IsEpochDay, IsWithin, days_in_year};
ghost use Rattle.jiff_core.specs.Date.{epoch_day};
ghost use Rattle.jiff_core.specs.Timestamp.{nanos_of_seconds};
ghost use Rattle.jiff_tz.specs.PosixDay.{is_rule_day};
ghost use Rattle.jiff_tz.specs.PosixRule.{clamp_to, rule_day, rule_nanos, sunday_number, weekday_of_month};
ghost use Rattle.jiff_tz.specs.PosixRule as Rule;
ghost use Rattle.cron_moments.specs.Civil.{civil, seconds_in_range};
ghost use Rattle.cron_clocks.specs.Spans.{AreTransitions, IsAtSecond, IsNarrowed, IsTransition, IsToldAlike, IsUnparted, year_end};
ghost use Rattle.cron_clocks.specs.Steady.{IsToldBy};

use crate::offsets::{Placed, offsets_among};
use crate::transitions::DAY;
use crate::years::{Year, year_of};
use cron_moments::civil::SECONDS;
use jiff::tz::Offset;
use jiff_core::civil::{Date, days_in_year, is_leap_year};
use jiff_tz::posix::{Day, DayTime, Dst, TimeZone};

/// Civil seconds from `first` up to `end`, which is left out.
#[derive(Clone, Copy)]
pub(crate) struct Span {
    pub first: i64,
    pub end: i64,
}

impl Span {
    /// Whether the civil second lies in the span.
    pub(crate) fn has(self, second: i64) -> bool
        ensures { IsTrue result → (self.first ≤ℤ second) × (second <ℤ self.end) }
    {
        self.first <= second && second < self.end
    }
}

/// The civil seconds of the range, 1970-01-01 00:00:00 to 2100-12-31 23:59:59.
pub(crate) const WHOLE: Span = Span {
    first: 0,
    end: SECONDS,
};

// The civil seconds of `year`, which begins with day `new_year`.
fn year_span(year: i16, new_year: i32) -> Span
    requires year { IsYear year }
    requires new_year { new_year ≡ Rule.first_day year }
    requires bound { IsEpochDay new_year }
    ensures first { result.first ≡ Rule.first_day year *ℤ pos 86_400 }
    ensures end { result.end ≡ (Rule.first_day year +ℤ pos (days_in_year year)) *ℤ pos 86_400 }
    ensures low { IsWithin 400_000_000_000 result.first }
    ensures high { IsWithin 400_000_000_000 result.end }
{
    let first = i64::from(new_year);
    Span {
        first: first * DAY,
        end: (first + i64::from(days_in_year(year))) * DAY,
    }
}

// The day number of `date`, whose year begins with day `new_year`.
fn number_of(date: Date, new_year: i32) -> i32
    requires { new_year ≡ Rule.first_day date.year }
    ensures value { result ≡ epoch_day date }
    ensures bound { IsEpochDay result }
{
    new_year + i32::from(date.day_of_year()) - 1
}

// How many days after `day` the next `weekday` is, where 0 is Sunday; 0 if `day` is one. Day 0 was
// a Thursday.
fn days_ahead(day: i32, weekday: u8) -> u8
    requires bound { IsEpochDay day }
    requires weekday_in { weekday ≤ 6 }
    ensures value { result ≡ (weekday + 7 - sunday_number day) % 7 }
    ensures bound { result < 7 }
{
    (i32::from(weekday) - 4 - day).rem_euclid(7) as u8
}

// How many days before `day` the last `weekday` is, where 0 is Sunday; 0 if `day` is one.
fn days_back(day: i32, weekday: u8) -> u8
    requires bound { IsEpochDay day }
    requires weekday_in { weekday ≤ 6 }
    ensures value { result ≡ (sunday_number day + 7 - weekday) % 7 }
    ensures bound { result < 7 }
{
    (day + 4 - i32::from(weekday)).rem_euclid(7) as u8
}

// The day number of `weekday` in `week` of `month`, where week 5 is the last. The year begins with
// day `new_year`.
fn day_of_week(year: i16, new_year: i32, month: u8, week: u8, weekday: u8) -> i32
    requires year_in { IsYear year }
    requires new_year { new_year ≡ Rule.first_day year }
    requires month_in { (1 ≤ month) × (month ≤ 12) }
    requires week_in { (1 ≤ week) × (week ≤ 5) }
    requires weekday_in { weekday ≤ 6 }
    ensures { result ≡ weekday_of_month year month week weekday }
{
    if week == 5 {
        let last = number_of(Date::constrain(year, month, 31), new_year);
        last - i32::from(days_back(last, weekday))
    } else {
        let first = number_of(Date::constrain(year, month, 1), new_year);
        first + i32::from(days_ahead(first, weekday)) + 7 * (i32::from(week) - 1)
    }
}

// The number of the rule's day in `year`, which begins with day `new_year`. `None` for day 365 of a
// year that lacks it.
fn day_in(day: Day, year: i16, new_year: i32) -> Option<i32>
    requires year_in { IsYear year }
    requires new_year { new_year ≡ Rule.first_day year }
    requires bound { IsEpochDay new_year }
    requires day_in { is_rule_day day ≡ true }
    ensures { result ≡ rule_day year day }
{
    match day {
        Day::JulianOne(number) => {
            let leap_day = if is_leap_year(year) && number >= 60 {
                1
            } else {
                0
            };
            Some(new_year + i32::from(number - 1 + leap_day))
        }
        Day::JulianZero(number) => {
            if number >= days_in_year(year) {
                return None;
            }
            Some(new_year + i32::from(number))
        }
        Day::WeekdayOfMonth {
            month,
            week,
            weekday,
        } => Some(day_of_week(year, new_year, month, week, weekday)),
    }
}

// `second`, or the nearer edge of `span` if it lies outside.
fn clamp_to_span(span: Span, second: i64) -> i64
    requires { span.first <ℤ span.end }
    ensures value { IsAtSecond span.end
        (clamp_to
        (nanos_of_seconds span.first)
        (nanos_of_seconds span.end -ℤ pos 1)
        (nanos_of_seconds second))
        result }
    ensures bound { IsBetween span.first span.end result }
{
    if second < span.first {
        span.first
    } else if span.end < second {
        span.end
    } else {
        second
    }
}

// The civil second `time` seconds after the midnight of `day`, or before it if `time` is negative.
fn second_of(day: i32, time: i32) -> i64
    requires { IsWithin 604_799 time }
    ensures { result ≡ day *ℤ pos 86_400 +ℤ time }
{
    i64::from(day) * DAY + i64::from(time)
}

// The civil second of a rule's transition in `year`, on the clock before the transition. The year
// begins with day `new_year` and has the seconds of `span`.
fn transition_in(transition: DayTime, year: i16, new_year: i32, span: Span) -> i64
    requires year { IsYear year }
    requires new_year { new_year ≡ Rule.first_day year }
    requires bound { IsEpochDay new_year }
    requires first { span.first ≡ Rule.first_day year *ℤ pos 86_400 }
    requires end { span.end ≡ year_end year }
    requires low { IsWithin 400_000_000_000 span.first }
    requires high { IsWithin 400_000_000_000 span.end }
    ensures transition { IsTransition transition year result }
    ensures bound { IsWithin 400_000_000_000 result }
{
    match day_in(transition.date, year, new_year) {
        Some(day) => clamp_to_span(span, second_of(day, transition.time)),
        None => span.end,
    }
}

/// The civil seconds of a year, and of the rule's two transitions in it: the start and the end of
/// the saving, each on the clock before it.
#[derive(Clone, Copy)]
pub(crate) struct Transitions {
    pub year: Span,
    pub start: i64,
    pub end: i64,
    pub ghost first_near: { IsWithin 400_000_000_000 year.first },
    pub ghost last_near: { IsWithin 400_000_000_000 year.end },
    pub ghost start_near: { IsWithin 400_000_000_000 start },
    pub ghost end_near: { IsWithin 400_000_000_000 end },
}

// The transitions of a rule in a year.
fn transitions_of(dst: Dst, of: Year) -> Transitions
    requires year { IsYear of.number }
    requires new_year { of.new_year ≡ Rule.first_day of.number }
    requires bound { IsEpochDay of.new_year }
    ensures transitions { AreTransitions dst
        result.year.first
        result.year.end
        result.start
        result.end }
    ensures first { result.year.first ≡ Rule.first_day of.number *ℤ pos 86_400 }
    ensures end { result.year.end ≡ year_end of.number }
{
    let Year { number, new_year } = of;
    let year = year_span(number, new_year);
    Transitions {
        year,
        start: transition_in(dst.rule.start, number, new_year, year),
        end: transition_in(dst.rule.end, number, new_year, year),
    }
}

/// The transitions of a rule in the year of a civil second.
#[inline(always)]
pub(crate) fn transitions_around(dst: Dst, second: u32) -> Transitions
    requires { second < seconds_in_range }
    ensures transitions { AreTransitions dst
        result.year.first
        result.year.end
        result.start
        result.end }
    ensures low { result.year.first ≤ℤ pos second }
    ensures high { pos second <ℤ result.year.end }
{
    transitions_of(dst, year_of(second))
}

/// Cuts `span` at `transition`, and returns the part that holds `second`. It is all of `span` if
/// the transition isn't inside.
pub(crate) fn part(span: Span, second: i64, transition: i64) -> Span
    requires low { span.first ≤ℤ second }
    requires high { second <ℤ span.end }
    ensures low { result.first ≤ℤ second }
    ensures high { second <ℤ result.end }
    ensures narrowed { IsNarrowed span.first span.end result.first result.end }
    ensures unparted { IsUnparted result.first result.end transition }
{
    if transition <= span.first || span.end <= transition {
        span
    } else if transition <= second {
        Span {
            first: transition,
            end: span.end,
        }
    } else {
        Span {
            first: span.first,
            end: transition,
        }
    }
}

/// Cuts `span` at two transitions, and returns the part that holds `second`.
pub(crate) fn part_twice(span: Span, second: i64, one: i64, other: i64) -> Span
    requires low { span.first ≤ℤ second }
    requires high { second <ℤ span.end }
    ensures low { result.first ≤ℤ second }
    ensures high { second <ℤ result.end }
    ensures narrowed { IsNarrowed span.first span.end result.first result.end }
    ensures one { IsUnparted result.first result.end one }
    ensures other { IsUnparted result.first result.end other }
{
    part(part(span, second, one), second, other)
}

/// How far the clock is ahead of standard time in the saving, in seconds: negative if it is set
/// back.
pub(crate) fn saving_of(rule: TimeZone, dst: Dst) -> i64
    ensures value { result ≡ dst.offset.seconds -ℤ rule.std_offset.seconds }
    ensures bound { IsWithin 200_000 result }
{
    i64::from(dst.offset.seconds) - i64::from(rule.std_offset.seconds)
}

/// The offsets at which a rule or a table reads a civil second: none in a gap, two in a fold.
/// `span` holds civil seconds around it with the same offsets.
#[derive(Clone, Copy)]
pub(crate) struct SpanOffsets {
    pub span: Span,
    pub earlier: Option<Offset>,
    pub later: Option<Offset>,
}

/// The offsets of the civil second `second` by a rule. The span is the part of its year around it
/// with no edge of a gap or fold between. Such an edge is at each transition, one saving after the
/// start, and one saving before the end.
pub(crate) fn between_transitions(
    rule: TimeZone,
    dst: Dst,
    transitions: Transitions,
    second: u32,
) -> SpanOffsets
    requires range { second < seconds_in_range }
    requires saving { rule.dst ≡ Some dst }
    requires transitions { AreTransitions dst
        transitions.year.first
        transitions.year.end
        transitions.start
        transitions.end }
    requires low { transitions.year.first ≤ℤ pos second }
    requires high { pos second <ℤ transitions.year.end }
    ensures alike { IsToldAlike rule second result.span.first result.span.end }
    ensures low { result.span.first ≤ℤ pos second }
    ensures high { pos second <ℤ result.span.end }
    ensures narrowed { IsNarrowed (pos 0) (pos seconds_in_range) result.span.first result.span.end }
    ensures told { IsToldBy (Rule.ambiguous_at rule (civil second)) result.earlier result.later }
{
    let Transitions { year, start, end } = transitions;
    let at = i64::from(second);
    let saving = saving_of(rule, dst);
    let in_year = part_twice(WHOLE, at, year.first, year.end);
    let by_start = part_twice(in_year, at, start, start + saving);
    let span = part_twice(by_start, at, end, end - saving);
    let placed = Placed {
        at,
        start,
        end,
        saving,
    };
    let (earlier, later) = offsets_among(
        Offset::from_plain(rule.std_offset),
        Offset::from_plain(dst.offset),
        placed,
    );
    SpanOffsets {
        span,
        earlier,
        later,
    }
}
