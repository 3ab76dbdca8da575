//! The nearest fires of a set around a second.
ghost use Rattle.std.specs.Prelude.{◌≡◌, ◌*ℤ◌, pos};
ghost use Rattle.cron_stretches.specs.Fires.{IsInstant, IsLatest, IsNext, instants, second_of, whole_second};

use cron_seconds::civil_seconds::CivilSeconds;
use cron_seconds::rule::Rule;
use jiff::Timestamp;

/// The last second that a `Timestamp` names.
const LAST: i128 = 253_402_207_200;

/// The second in which an instant lies, counted from 1970-01-01T00:00:00Z.
pub fn second_of(instant: Timestamp) -> i64
    ensures second { result ≡ second_of instant.nanosecond }
    ensures in_range { IsInstant result }
{
    instant.to_plain().floor_second()
}

/// The first second that begins at an instant or after it, counted from 1970-01-01T00:00:00Z. After
/// the last one that a `Timestamp` names, it is that one.
pub fn whole_second(instant: Timestamp) -> i64
    ensures second { result ≡ whole_second instant.nanosecond }
    ensures in_range { IsInstant result }
{
    let nanos = instant.as_nanosecond() + 999_999_999;
    nanos.div_euclid(1_000_000_000).min(LAST) as i64
}

/// The instant at which `second` begins.
pub fn instant_at(second: i64) -> Timestamp
    requires { IsInstant second }
    ensures { result.nanosecond ≡ second *ℤ pos 1_000_000_000 }
{
    Timestamp::from_second(second).unwrap()
}

/// The second of the last fire at or before `second`, or `None` if there is none.
pub fn last_fire<S: CivilSeconds, R: Rule>(set: &S, second: i64, clock: &R::Clock) -> Option<i64>
    requires { IsInstant second }
    ensures { IsLatest (instants R.at (R.fires (S.has set.now) clock.now)) second result }
{
    R::in_order();
    match R::last_by(set, instant_at(second), clock) {
        Some(fire) => Some(R::instant_of(&fire)),
        None => None,
    }
}

/// The second of the first fire after `second`, or `None` if there is none.
pub fn next_fire<S: CivilSeconds, R: Rule>(set: &S, second: i64, clock: &R::Clock) -> Option<i64>
    requires { IsInstant second }
    ensures { IsNext (instants R.at (R.fires (S.has set.now) clock.now)) second result }
{
    R::in_order();
    match R::first_after(set, instant_at(second), clock) {
        Some(fire) => Some(R::instant_of(&fire)),
        None => None,
    }
}
