//! The first item of a history from where a search begins, and the last one at or before an
//! instant. A history is a list of eras: zones that hold one after another.

ghost use Rattle.std.specs.Prelude.{◌≡◌, ◌+◌, ◌<◌, ◌≤◌, ◌≤ℤ◌, ◌<ℤ◌, pos, neg_ℤ, false, MatchOption, MatchResult, length};
ghost use Rattle.jiff.specs.Words.{plain_zone};
ghost use Rattle.cron_moments.specs.Readings.{Reading, instant};
ghost use Rattle.cron_time.specs.Seconds.{Seconds};
ghost use Rattle.cron_instants.specs.Instants.{IsBy, IsEarliest, IsItem, IsLatest};
ghost use Rattle.cron_c.specs.Histories.{AllBelow, BeginsIn, EndsIn, IsBeyond, IsFound, IsHistory, IsItemAt, IsLastInBy, IsSought, IsZoneAt, has_started};

use crate::era::{CronEra, has_come, zone_at};
use crate::places::{left_before, place_of, place_past};
use cron_instants::instants::{first_after, first_past, last_by};
use cron_moments::civil::FURTHEST_OFFSET;
use cron_moments::moment::{Moment, instant_of};
use cron_seconds::civil_seconds::CivilSeconds;
use jiff::Timestamp;
use jiff::tz::TimeZone;

/// Where a search begins.
#[derive(Clone, Copy)]
pub enum Begin {
    /// After an instant.
    After(Timestamp),
    /// After an item.
    Past(Moment),
}

/// The error of eras that are no history. The search came to an era whose zone isn't valid, or
/// whose next era starts no later.
#[derive(Clone, Copy)]
pub struct NoHistory;

/// The least instant, in seconds since 1970, that an item of the search may have. Every item with a
/// greater one is in the search.
pub fn least_second(begin: &Begin) -> i64
    ensures least { (r : Reading) → IsBeyond begin.now r → result ≤ℤ instant r }
    ensures all { (r : Reading) → result <ℤ instant r → IsBeyond begin.now r }
    ensures low { neg_ℤ (pos 377_705_023_201) ≤ℤ result }
{
    match begin {
        Begin::After(now) => now.to_plain().floor_second() + 1,
        Begin::Past(item) => instant_of(item),
    }
}

/// Where the search begins in `era`: at `begin`, or just before the era if that is later. `None` if
/// the era starts too late for any item.
pub fn begin_in(era: &CronEra, begin: &Begin) -> Option<Begin>
    ensures { MatchOption result
        ((r : Reading) → era.now.starts ≤ℤ instant r → instant r ≤ℤ pos 4_200_000_000 → ⊥)
        (λ there. BeginsIn era.now begin.now there) }
{
    if era.starts <= least_second(begin) {
        return Some(*begin);
    }
    match Timestamp::from_second(era.starts - 1) {
        Ok(before) => Some(Begin::After(before)),
        Err(_) => None,
    }
}

// The last instant before `era`, or `until` if that is earlier. `None` if no item is so early.
fn until_before(era: &CronEra, until: Timestamp) -> Option<Timestamp>
    ensures { MatchOption result
        ((r : Reading) → instant r <ℤ era.now.starts → IsBy until.nanosecond r → ⊥)
        (λ t. ((r : Reading) → instant r <ℤ era.now.starts → IsBy until.nanosecond r
        → IsBy t.nanosecond r)
        × ((r : Reading) → IsBy t.nanosecond r
        → IsBy until.nanosecond r × (instant r <ℤ era.now.starts))) }
{
    if era.starts > until.to_plain().floor_second() {
        return Some(until);
    }
    if era.starts < -FURTHEST_OFFSET {
        return None;
    }
    match Timestamp::from_second(era.starts - 1) {
        Ok(before) => Some(before),
        Err(_) => None,
    }
}

/// The last instant of the era at place `at`, or `now` if that is earlier. `None` if no item is so
/// early.
pub fn until_in(eras: &[CronEra], at: usize, now: Timestamp) -> Option<Timestamp>
    requires { at < length eras.now }
    ensures { MatchOption result
        ((r : Reading) → IsBy now.nanosecond r
        → has_started eras.now (at + 1) (instant r) ≡ false → ⊥)
        (λ t. EndsIn eras.now at now.nanosecond t.nanosecond) }
{
    match eras.get(at + 1) {
        Some(next) => until_before(next, now),
        None => Some(now),
    }
}

/// How many of the eras may have an item at or before `now`: in a history, the eras up to the one
/// that holds `now`.
pub fn eras_by(eras: &[CronEra], now: Timestamp) -> usize
    ensures bound { result ≤ length eras.now }
    ensures below { (s : Seconds) → IsHistory eras.now → AllBelow s eras.now now.nanosecond result }
{
    let held = place_of(eras, now.to_plain().floor_second());
    eras.len().min(held + 1)
}

// The first item of `zone` after `begin`, `None` if there is none.
fn first_of_zone<S: CivilSeconds>(set: &S, zone: &TimeZone<'_>, begin: &Begin) -> Option<Moment>
    ensures { IsEarliest
        (λ r. IsItem (S.has set.now) (plain_zone zone.now) r × IsBeyond begin.now r) result }
{
    match begin {
        Begin::After(now) => first_after(set, *now, zone),
        Begin::Past(item) => first_past(set, item, zone),
    }
}

// The first item after `begin` of the era at place `at`, whose zone is `zone`. `None` if there is
// none.
fn first_in_era<S: CivilSeconds>(
    set: &S,
    eras: &[CronEra],
    at: usize,
    zone: &TimeZone<'_>,
    begin: &Begin,
) -> Option<Moment>
    requires within { at < length eras.now }
    requires zone { IsZoneAt eras.now at (plain_zone zone.now) }
    ensures { IsEarliest
        (λ r. IsItemAt (S.has set.now) eras.now at r × IsBeyond begin.now r) result }
{
    let Some(there) = begin_in(&eras[at], begin) else {
        return None;
    };
    let Some(found) = first_of_zone(set, zone, &there) else {
        return None;
    };
    if has_come(eras, at + 1, instant_of(&found)) {
        return None;
    }
    Some(found)
}

/// The first item of a history after `begin`, `None` if there is none.
pub fn first_of_history<S: CivilSeconds>(
    set: &S,
    eras: &[CronEra],
    begin: &Begin,
) -> Result<Option<Moment>, NoHistory>
    ensures { MatchResult result
        (λ found. IsFound eras.now IsEarliest (IsSought (S.has set.now) eras.now begin.now) found)
        (λ e. IsHistory eras.now → ⊥) }
{
    let mut at = place_of(eras, least_second(begin));
    while at < eras.len() {
        let Some(zone) = zone_at(eras, at) else {
            return Err(NoHistory);
        };
        if let Some(found) = first_in_era(set, eras, at, &zone, begin) {
            return Ok(Some(found));
        }
        at = place_past(set, eras, at);
    }
    Ok(None)
}

// The last item of the era at place `at`, whose zone is `zone`, with an instant at or before `now`.
// `None` if there is none.
fn last_in_era<S: CivilSeconds>(
    set: &S,
    eras: &[CronEra],
    at: usize,
    zone: &TimeZone<'_>,
    now: Timestamp,
) -> Option<Moment>
    requires within { at < length eras.now }
    requires zone { IsZoneAt eras.now at (plain_zone zone.now) }
    ensures { IsLatest
        (λ r. IsItemAt (S.has set.now) eras.now at r × IsBy now.nanosecond r) result }
{
    let Some(until) = until_in(eras, at, now) else {
        return None;
    };
    let Some(found) = last_by(set, until, zone) else {
        return None;
    };
    if !has_come(eras, at, instant_of(&found)) {
        return None;
    }
    Some(found)
}

/// The last item of a history with an instant at or before `now`, `None` if there is none.
pub fn last_of_history<S: CivilSeconds>(
    set: &S,
    eras: &[CronEra],
    now: Timestamp,
) -> Result<Option<Moment>, NoHistory>
    ensures { MatchResult result
        (λ found. IsLastInBy (S.has set.now) eras.now now.nanosecond found)
        (λ e. IsHistory eras.now → ⊥) }
{
    let mut left = eras_by(eras, now);
    while left > 0 {
        let at = left - 1;
        let Some(zone) = zone_at(eras, at) else {
            return Err(NoHistory);
        };
        if let Some(found) = last_in_era(set, eras, at, &zone, now) {
            return Ok(Some(found));
        }
        left = left_before(set, eras, at);
    }
    Ok(None)
}
