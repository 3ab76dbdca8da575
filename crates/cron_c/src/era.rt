//! Eras: a zone with a history, as a list of zones that hold one after another.

ghost use Rattle.std.specs.Prelude.{◌≡◌, ◌↔◌, ◌<◌, ◌+◌, MatchOption, true, length, slice_get};
ghost use Rattle.jiff.specs.Words.{plain_zone};
ghost use Rattle.cron_c.specs.Zones.{IsSomeZone};
ghost use Rattle.cron_c.specs.Histories.{IsHistory, IsZoneAt, has_started, meets};

use crate::era_table::fixed_rule;
use crate::zone::{CronZone, FIXED, zone_in};
use jiff::tz::{Offset, TimeZone};

/// An era: from `starts` on, in seconds since 1970-01-01T00:00:00Z, the clock is the clock of
/// `zone`, until the next era starts.
#[repr(C)]
#[derive(Clone, Copy)]
pub struct CronEra {
    pub starts: i64,
    pub zone: CronZone,
}

// Returns true if a struct with one offset is a valid zone. Most eras have one. The rule is made
// for the proof, which uses it to name the struct's zone.
fn is_fixed(zone: &CronZone) -> bool
    requires { zone.now.kind ≡ 1 }
    ensures { (result ≡ true) ↔ IsSomeZone zone.now }
{
    match Offset::from_seconds(zone.offset) {
        Ok(offset) => {
            let _rule = fixed_rule(offset.to_plain());
            true
        }
        Err(_) => false,
    }
}

// Returns true if `zone` is a valid zone.
fn is_zone(zone: &CronZone) -> bool
    ensures { (result ≡ true) ↔ IsSomeZone zone.now }
{
    if zone.kind == FIXED {
        return is_fixed(zone);
    }
    match zone_in(zone) {
        Some(_) => true,
        None => false,
    }
}

// Returns true if the era after place `at` starts no later than the era at `at`. False if there is
// no era after it.
fn meets_next(eras: &[CronEra], at: usize) -> bool
    requires { at < length eras.now }
    ensures { result ≡ meets (slice_get eras.now at) (slice_get eras.now (at + 1)) }
{
    match (eras.get(at), eras.get(at + 1)) {
        (Some(era), Some(next)) => next.starts <= era.starts,
        _ => false,
    }
}

/// Returns true if each era has a valid zone, and starts later than the era before it.
pub fn is_history(eras: &[CronEra]) -> bool
    ensures { (result ≡ true) ↔ IsHistory eras.now }
{
    for at in 0..eras.len() {
        if !is_zone(&eras[at].zone) {
            return false;
        }
        if meets_next(eras, at) {
            return false;
        }
    }
    true
}

/// The zone of the era at place `at`. `None` if it isn't valid, or if the next era starts no later.
pub fn zone_at(eras: &[CronEra], at: usize) -> Option<TimeZone<'static>>
    requires { at < length eras.now }
    ensures { MatchOption result
        (IsHistory eras.now → ⊥)
        (λ zone. IsZoneAt eras.now at (plain_zone zone)) }
{
    if meets_next(eras, at) {
        return None;
    }
    zone_in(&eras[at].zone)
}

/// Returns true if the era at place `at` starts at or before `second`, in seconds since 1970. False
/// if there is no such era.
pub fn has_come(eras: &[CronEra], at: usize, second: i64) -> bool
    ensures { result ≡ has_started eras.now at second }
{
    match eras.get(at) {
        Some(era) => era.starts <= second,
        None => false,
    }
}
