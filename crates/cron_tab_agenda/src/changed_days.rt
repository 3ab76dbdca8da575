//! The days on which a transition skips a fixed time of an entry, or doubles it. A fixed time is a
//! civil second that matches an entry at a fixed time, that is, one that doesn't follow the clock.
//! Days are numbered from 1970-01-01, and civil seconds from its midnight.

ghost use Rattle.std.specs.Prelude.{◌≡◌, ◌<◌, ◌≤◌, ◌+◌, ◌*◌, ◌↔◌, ◌++◌, ◌∷◌, [], ℕ, IsTrue, OnErr, OnOk, true, vec_capacity, vec_len};
ghost use Rattle.jiff.specs.Words.{plain_zone};
ghost use Rattle.cron_moments.specs.Civil.{civil, days_in_range, seconds_in_range};
ghost use Rattle.cron_time.specs.Matches.{matches};
ghost use Rattle.cron_unions.specs.Unions.{matches_any};
ghost use Rattle.cron_tab_lines.specs.Views.{file_line_view};
ghost use Rattle.cron_tab_agenda.specs.ChangedDays.{AppendsChanges, HasSecond, ListsChanges, end_day, first_day};
ghost use Rattle.cron_tab_agenda.specs.Inner.Changes.{AreChanges, AreUnchanged, IsNextChanged};

use crate::adding::{Clock, changes_of};
use crate::tab_entry::TabEntry;
use cron_clocks::clock::shown_at;
use cron_clocks::stretch::Stretch;
use cron_fires::{CivilSeconds, ClockChanges};
use cron_moments::civil::{DAYS, SECONDS_PER_DAY, civil_of};
use cron_tab_lines::FileLine;
use cron_time::search::civil_seconds::nearest_match;
use cron_units::fields::ScheduleFields;
use cron_units::way::Way;
use jiff::Timestamp;
use jiff::civil::Date;
use jiff::tz::TimeZone;
use std::alloc::AllocError;

/// A civil day on which a transition skips a fixed time of an entry, or doubles it.
#[derive(Clone, Copy, Debug, PartialEq, Eq)]
pub struct ChangedDay {
    /// The day, from 1970 to 2100.
    pub date: Date,
    /// Whether the clock skips a fixed time of the day.
    pub skipped: bool,
    /// Whether the clock shows a fixed time of the day twice.
    pub doubled: bool,
}

// Whether a matching civil second is skipped, and whether one is doubled, among those from some
// first one up to but without `end`.
#[derive(Clone, Copy)]
struct Changes {
    end: u32,
    skipped: bool,
    doubled: bool,
}

// Returns true if a civil second from `first` on and before `end` matches the schedule.
fn matches_within(fields: &ScheduleFields, first: u32, end: u32) -> bool
    requires { end ≤ seconds_in_range }
    ensures { IsTrue result ↔ HasSecond (λ c. matches fields.now (civil c) ≡ true) first end }
{
    match nearest_match(fields, Way::Ahead, i64::from(first)) {
        Some(second) => second < end,
        None => false,
    }
}

// Returns true if a civil second from `first` on and before `end` matches one of the schedules.
fn any_matches(schedules: &[ScheduleFields], first: u32, end: u32) -> bool
    requires { end ≤ seconds_in_range }
    ensures { IsTrue result
        ↔ HasSecond (λ c. matches_any schedules.now (civil c) ≡ true) first end }
{
    for fields in schedules {
        if matches_within(fields, first, end) {
            return true;
        }
    }
    false
}

// The changes of the civil seconds from `first` on, up to the first one that the zone reads at
// other offsets than `first`, or up to `end`.
fn changes_from(schedules: &[ScheduleFields], zone: &TimeZone<'_>, first: u32, end: u32) -> Changes
    requires some { first < end }
    requires range { end ≤ seconds_in_range }
    ensures changes { AreChanges schedules.now (plain_zone zone.now) first result }
    ensures further { first < result.end }
    ensures within { result.end ≤ end }
{
    let stretch = Stretch::at(zone, first);
    let end = stretch.end.min(end);
    match (stretch.earlier, stretch.later) {
        (None, _) => Changes {
            end,
            skipped: any_matches(schedules, first, end),
            doubled: false,
        },
        (Some(_), Some(_)) => Changes {
            end,
            skipped: false,
            doubled: any_matches(schedules, first, end),
        },
        (Some(_), None) => Changes {
            end,
            skipped: false,
            doubled: false,
        },
    }
}

// The changes of all civil seconds of the day with the number `day`.
fn changes_on(schedules: &[ScheduleFields], zone: &TimeZone<'_>, day: u32) -> Changes
    requires { day < days_in_range }
    ensures changes { AreChanges schedules.now (plain_zone zone.now) (day * 86_400) result }
    ensures end { result.end ≡ (day + 1) * 86_400 }
{
    let end = (day + 1) * SECONDS_PER_DAY;
    let mut all = Changes {
        end: day * SECONDS_PER_DAY,
        skipped: false,
        doubled: false,
    };
    while all.end < end {
        let more = changes_from(schedules, zone, all.end, end);
        all = Changes {
            end: more.end,
            skipped: all.skipped || more.skipped,
            doubled: all.doubled || more.doubled,
        };
    }
    all
}

// A day such that no day from `day` on and before it is changed. It is `day` if a change is found
// at once. Else it is the first day with a civil second that the zone reads at other offsets than
// `day`'s midnight, at most `end`.
fn unchanged_up_to(schedules: &[ScheduleFields], zone: &TimeZone<'_>, day: u32, end: u32) -> u32
    requires some { day < end }
    requires range { end ≤ days_in_range }
    ensures unchanged { AreUnchanged schedules.now (plain_zone zone.now) day result }
{
    let ahead = changes_from(
        schedules,
        zone,
        day * SECONDS_PER_DAY,
        end * SECONDS_PER_DAY,
    );
    if ahead.skipped || ahead.doubled {
        return day;
    }
    ahead.end / SECONDS_PER_DAY
}

// The first changed day from `first` on and before `end`, with its number. `None` if there is none.
fn next_changed(
    schedules: &[ScheduleFields],
    zone: &TimeZone<'_>,
    first: u32,
    end: u32,
) -> Option<(u32, ChangedDay)>
    requires { end ≤ days_in_range }
    ensures { IsNextChanged schedules.now (plain_zone zone.now) first end result }
{
    let mut day = first;
    while day < end {
        let Changes {
            skipped,
            doubled,
            ..
        } = changes_on(schedules, zone, day);
        if skipped || doubled {
            let date = civil_of(day * SECONDS_PER_DAY).date();
            return Some((
                day,
                ChangedDay {
                    date,
                    skipped,
                    doubled,
                },
            ));
        }
        day = unchanged_up_to(schedules, zone, day, end).max(day + 1);
    }
    None
}

// Appends `day` to `days`, or changes nothing if there is no memory.
fn push_day(days: &mut Vec<ChangedDay>, day: ChangedDay) -> Result<(), AllocError>
    ensures pushed { OnOk result (days.new.items ≡ days.old.items ++ day ∷ []) }
    ensures same { OnErr result (days.new.items ≡ days.old.items) }
    ensures full { OnErr result (vec_capacity days.new ≤ vec_len days.new) }
{
    if days.try_reserve(1).is_err() {
        return Err(AllocError);
    }
    match days.push(day) {
        Ok(()) => Ok(()),
        // never, since there is room
        Err(_) => Err(AllocError),
    }
}

// Appends the changed days from `first` on and before `end` to `days`. If memory runs out, those
// found so far are appended.
fn push_changes(
    days: &mut Vec<ChangedDay>,
    schedules: &[ScheduleFields],
    zone: &TimeZone<'_>,
    first: u32,
    end: u32,
) -> Result<(), AllocError>
    requires order { first ≤ end }
    requires range { end ≤ days_in_range }
    ensures appends { AppendsChanges schedules.now (plain_zone zone.now) first end
        days.old.items result days.new.items }
    ensures full { OnErr result (vec_capacity days.new ≤ vec_len days.new) }
{
    let mut at = first;
    while let Some((number, day)) = next_changed(schedules, zone, at, end) {
        match push_day(days, day) {
            Ok(()) => at = number + 1,
            Err(error) => return Err(error),
        }
    }
    Ok(())
}

// The number of the day that a clock in the zone shows at `start`, or the nearest number from 0 to
// `DAYS`.
fn first_day(zone: &TimeZone<'_>, start: Timestamp) -> u32
    ensures day { result ≡ first_day (plain_zone zone.now) start.nanosecond }
    ensures bound { result ≤ days_in_range }
{
    let mut stretch = Stretch::empty();
    let shown = shown_at(zone, start, &mut stretch);
    let day = shown.div_euclid(i64::from(SECONDS_PER_DAY));
    if day < 0 {
        return 0;
    }
    if day > i64::from(DAYS) {
        return DAYS;
    }
    day as u32
}

/// Appends to `days` the days on which a transition skips a fixed time of a line's entry, or
/// doubles it. It searches so many days from the day on that a clock in the zone shows at `start`,
/// but at most to the end of 2100. An entry that follows the clock has no such days, and neither has a
/// line that is no entry. If memory runs out, the days found so far are appended.
pub fn list_changes(
    days: &mut Vec<ChangedDay>,
    line: &FileLine<'_>,
    zone: &TimeZone<'_>,
    start: Timestamp,
    ahead: u32,
) -> Result<(), AllocError>
    ensures lists { ListsChanges (file_line_view line.now) (plain_zone zone.now) start.nanosecond
        ahead days.old.items result days.new.items }
    ensures full { OnErr result (vec_capacity days.new ≤ vec_len days.new) }
{
    let Some(entry) = TabEntry::of(line) else {
        return Ok(());
    };
    if let ClockChanges::AsShown = changes_of(Clock::Own, line.bytes) {
        return Ok(());
    }
    let first = first_day(zone, start);
    let end = first.saturating_add(ahead).min(DAYS);
    push_changes(days, entry.union().schedules, zone, first, end)
}
