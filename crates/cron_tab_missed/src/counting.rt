//! How many fires come between two instants, and the first and the last of them.
ghost use Rattle.std.specs.Prelude.{◌≡◌, [], map};
ghost use Rattle.jiff.specs.Words.{plain_zone};
ghost use Rattle.cron_agenda.specs.declared.fire.EntryFire.TheVariants.{AsShown, Once};
ghost use Rattle.cron_unions.specs.Unions.{any_of};
ghost use Rattle.cron_tab_fires.specs.Fires.{dues_between, fires_between, shown_between};
ghost use Rattle.cron_tab_missed.specs.Missed.{missed_of};
ghost use Rattle.cron_tab_missed.specs.Inner.Counting.{first_of, with_fire};

use cron_agenda::EntryFire;
use cron_fires::{ClockChanges, Dues, Fires, Union};
use cron_units::fields::ScheduleFields;
use jiff::Timestamp;
use jiff::tz::TimeZone;

/// The first and the last of some fires, which may be one.
#[derive(Clone, Copy, Debug, PartialEq, Eq)]
pub struct Ends {
    pub first: EntryFire,
    pub last: EntryFire,
}

/// The fires that an entry missed.
#[derive(Clone, Copy, Debug, PartialEq, Eq)]
pub struct Missed {
    /// How many there are.
    pub count: u64,
    /// `None` if there are none.
    pub ends: Option<Ends>,
}

/// No fire was missed.
pub(crate) fn nothing() -> Missed
    ensures { result ≡ missed_of [] }
{
    Missed {
        count: 0,
        ends: None,
    }
}

// The first fire, which is `fire` if there was none before.
fn first_of(ends: &Option<Ends>, fire: &EntryFire) -> EntryFire
    ensures { result ≡ first_of ends.now fire.now }
{
    match ends {
        Some(ends) => ends.first,
        None => *fire,
    }
}

// The missed fires with one more, which comes after them.
fn with_fire(missed: &Missed, fire: &EntryFire) -> Missed
    ensures { result ≡ with_fire missed.now fire.now }
{
    Missed {
        count: missed.count.saturating_add(1),
        ends: Some(Ends {
            first: first_of(&missed.ends, fire),
            last: *fire,
        }),
    }
}

// Counts the fires of the schedules after `start` and at or before `end`, one for each time that
// the clock shows a match.
fn count_shown(
    schedules: &[ScheduleFields],
    start: Timestamp,
    end: Timestamp,
    zone: &TimeZone<'_>,
) -> Missed
    ensures { result ≡ missed_of
        (shown_between (any_of schedules.now) (plain_zone zone.now) start.nanosecond end.nanosecond) }
{
    let mut missed = nothing();
    let table = Union { schedules };
    for moment in Fires::between(&table, start, end, zone) {
        missed = with_fire(&missed, &EntryFire::AsShown(moment));
    }
    missed
}

// Counts the due fires of the schedules after `start` and at or before `end`: one for each match,
// also if the clock skips it or shows it twice.
fn count_dues(
    schedules: &[ScheduleFields],
    start: Timestamp,
    end: Timestamp,
    zone: &TimeZone<'_>,
) -> Missed
    ensures { result ≡ missed_of
        (dues_between (any_of schedules.now) (plain_zone zone.now) start.nanosecond end.nanosecond) }
{
    let mut missed = nothing();
    let table = Union { schedules };
    for due in Dues::between(&table, start, end, zone) {
        missed = with_fire(&missed, &EntryFire::Once(due));
    }
    missed
}

/// Counts the fires of several schedules as one after `start` and at or before `end`, by the rule
/// `changes`. None is kept in memory but the first and the last.
pub(crate) fn count_between(
    schedules: &[ScheduleFields],
    changes: ClockChanges,
    start: Timestamp,
    end: Timestamp,
    zone: &TimeZone<'_>,
) -> Missed
    ensures { result ≡ missed_of (fires_between
        (any_of schedules.now) (plain_zone zone.now) changes start.nanosecond end.nanosecond) }
{
    match changes {
        ClockChanges::AsShown => count_shown(schedules, start, end, zone),
        ClockChanges::Once => count_dues(schedules, start, end, zone),
    }
}
