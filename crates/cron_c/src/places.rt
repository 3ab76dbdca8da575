//! Places of eras: which era holds a second, and which eras a search skips. A second of UTC is
//! counted from 1970-01-01T00:00:00Z, a civil second from 1970-01-01 00:00:00.

ghost use Rattle.std.specs.Prelude.{◌≡◌, ◌+◌, ◌⊎◌, ◌<◌, ◌≤◌, ◌≤ℤ◌, ◌+ℤ◌, ◌-ℤ◌, ℕ, pos, MatchOption, true, false, length};
ghost use Rattle.jiff_tz.specs.declared.timezone.TimeZone.{TimeZone};
ghost use Rattle.cron_moments.specs.Civil.{seconds_in_range};
ghost use Rattle.cron_moments.specs.Readings.{Reading, instant};
ghost use Rattle.cron_instants.specs.Instants.{IsItem};
ghost use Rattle.cron_c.specs.Histories.{IsHistory, IsItemAt, StartsAt, has_started};

use crate::era::{CronEra, has_come};
use cron_moments::civil::{FURTHEST_OFFSET, SECONDS};
use cron_seconds::civil_seconds::CivilSeconds;
use cron_units::way::Way;

/// The place of the era that holds the UTC second `second`, or 0 if no era has started by then.
pub fn place_of(eras: &[CronEra], second: i64) -> usize
    ensures begun { (result ≡ 0) ⊎ (has_started eras.now result second ≡ true) }
    ensures lasts { has_started eras.now (result + 1) second ≡ false }
    ensures bound { result ≤ length eras.now }
{
    let mut place = 0;
    let mut end = eras.len().max(1);
    while end > place + 1 {
        let middle = place + (end - place) / 2;
        if has_come(eras, middle, second) {
            place = middle;
        } else {
            end = middle;
        }
    }
    place
}

// A lower bound of the civil seconds of the range that any clock shows from the UTC second `second`
// on.
fn shown_from(second: i64) -> i64
    ensures { (r : Reading) → second ≤ℤ instant r → result ≤ℤ pos r.second }
{
    if second < FURTHEST_OFFSET {
        return 0;
    }
    second - FURTHEST_OFFSET
}

// An upper bound of the civil seconds of the range that any clock shows up to the UTC second
// `second`.
fn shown_by(second: i64) -> i64
    ensures { (r : Reading) → r.second < seconds_in_range → instant r ≤ℤ second
        → pos r.second ≤ℤ result }
{
    if second > SECONDS {
        return SECONDS;
    }
    second + FURTHEST_OFFSET
}

// The first second of UTC when a clock may show the civil second `second`.
fn first_instant(second: u32) -> i64
    requires { second < seconds_in_range }
    ensures { result ≡ pos second -ℤ pos 93_599 }
{
    second as i64 - FURTHEST_OFFSET
}

// The last second of UTC when a clock may show the civil second `second`.
fn last_instant(second: u32) -> i64
    requires { second < seconds_in_range }
    ensures { result ≡ pos second +ℤ pos 93_599 }
{
    second as i64 + FURTHEST_OFFSET
}

// A second of UTC before which no zone has an item that is at or after `second`. `None` if no zone
// has an item at or after `second`.
fn earliest_from<S: CivilSeconds>(set: &S, second: i64) -> Option<i64>
    ensures { MatchOption result
        ((z : TimeZone) (r : Reading) → IsItem (S.has set.now) z r → second ≤ℤ instant r → ⊥)
        (λ t. (z : TimeZone) (r : Reading) → IsItem (S.has set.now) z r
        → second ≤ℤ instant r → t ≤ℤ instant r) }
{
    let Some(next) = set.nearest(Way::Ahead, shown_from(second)) else {
        return None;
    };
    Some(first_instant(next))
}

// A second of UTC after which no zone has an item that is at or before `second`. `None` if no zone
// has an item at or before `second`.
fn latest_by<S: CivilSeconds>(set: &S, second: i64) -> Option<i64>
    ensures { MatchOption result
        ((z : TimeZone) (r : Reading) → IsItem (S.has set.now) z r → instant r ≤ℤ second → ⊥)
        (λ t. (z : TimeZone) (r : Reading) → IsItem (S.has set.now) z r
        → instant r ≤ℤ second → instant r ≤ℤ t) }
{
    let Some(next) = set.nearest(Way::Back, shown_by(second)) else {
        return None;
    };
    Some(last_instant(next))
}

/// The place of the next era to search after `at`, or `eras.len()` if there is none. Eras where no
/// clock can show a match are skipped, so that a search doesn't grow with their number.
pub fn place_past<S: CivilSeconds>(set: &S, eras: &[CronEra], at: usize) -> usize
    requires { at < length eras.now }
    ensures further { at < result }
    ensures passed { IsHistory eras.now → (i : ℕ) (r : Reading) → at < i
        → IsItemAt (S.has set.now) eras.now i r → result ≤ i }
{
    if at + 1 == eras.len() {
        return at + 1;
    }
    match earliest_from(set, starts_at(eras, at + 1)) {
        Some(second) => place_of(eras, second).max(at + 1),
        None => eras.len(),
    }
}

// The start of the era at place `at`, as a UTC second.
fn starts_at(eras: &[CronEra], at: usize) -> i64
    requires { at < length eras.now }
    ensures { StartsAt eras.now at result }
{
    match eras.get(at) {
        Some(era) => era.starts,
        None => i64::MAX,
    }
}

/// How many of the first eras are left to search back from place `at`. The last eras before it are
/// skipped, as long as no clock can show a match there.
pub fn left_before<S: CivilSeconds>(set: &S, eras: &[CronEra], at: usize) -> usize
    requires { at < length eras.now }
    ensures fewer { result ≤ at }
    ensures passed { IsHistory eras.now → (i : ℕ) (r : Reading) → i < at
        → IsItemAt (S.has set.now) eras.now i r → i < result }
{
    match latest_by(set, starts_at(eras, at)) {
        Some(second) => (place_of(eras, second) + 1).min(at),
        None => 0,
    }
}
