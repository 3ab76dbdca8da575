//! Instants as a shell writes them.

ghost use Rattle.std.specs.Prelude.{◌≡◌, ◌≤◌, ◌+ℤ◌, ◌*ℤ◌, ◌++◌, length, neg_ℤ, option_map, pos};
ghost use Rattle.jiff_core.specs.Calendar.{IsBetween};
ghost use Rattle.jiff.specs.Words.{plain_zone};
ghost use Rattle.cron_answers.specs.Instants.{IsCivil, IsCivilSecond, IsCounted, IsDateSecond, IsInstant, IsInstantOf, IsPrinted, IsSecondAt, IsSpoken, IsTimestamp, Tells, TellsSecond};

use crate::said::said_at;
use crate::shift::seconds_away;
use arrayvec::ArrayString;
use cron_dues::reader;
use cron_dues::way_to::due_of;
use cron_moments::civil::SECONDS;
use cron_walk_listing::arguments::count_of;
use jiff::Timestamp;
use jiff::tz::TimeZone;

/// The bytes of the longest text that is read as a civil time.
const LONGEST: usize = 32;

/// The bytes of the longest text with an end: a civil time, and a midnight of UTC.
const STAMP: usize = 39;

/// The nanoseconds of the civil seconds from 1970 to 2100.
const RANGE: i128 = 4_133_980_800_000_000_000;

const NANOS: u64 = 1_000_000_000;

// Reads `@SECONDS`: a decimal number of seconds since 1970-01-01T00:00:00Z, up to 2^32 - 1. `None`
// for any other text.
fn counted(text: &str) -> Option<Timestamp>
    ensures { Tells (IsCounted text.now) (option_map (λ t. t.nanosecond) result) }
{
    let Some(digits) = text.strip_prefix('@') else {
        return None;
    };
    match count_of(digits) {
        Some(seconds) => Some(Timestamp::from_second(i64::from(seconds)).unwrap()),
        None => None,
    }
}

// Reads a fire as it was printed. `None` for any other text.
fn printed(text: &str) -> Option<Timestamp>
    ensures { Tells (IsPrinted text.now) (option_map (λ t. t.nanosecond) result) }
{
    match reader::read(text) {
        Ok(fire) => Some(fire.timestamp()),
        Err(_) => None,
    }
}

// The civil second, since 1970-01-01 00:00:00, that UTC shows at the instant that `stamp` spells.
// `None` if that is no instant, isn't a whole second, or is outside of 1970 to 2100.
fn second_at(stamp: &str) -> Option<u32>
    ensures { TellsSecond (IsSecondAt stamp.now) result }
{
    let Ok(instant) = stamp.parse::<Timestamp>() else {
        return None;
    };
    let nanos = instant.as_nanosecond();
    if nanos < 0 {
        return None;
    }
    if nanos >= RANGE {
        return None;
    }
    let nanos = nanos as u64;
    if nanos % NANOS != 0 {
        return None;
    }
    Some((nanos / NANOS) as u32)
}

// The civil second that UTC shows at the instant that `text` followed by `end` spells. `None` if
// `second_at` reads none.
fn second_behind(text: &str, end: &str) -> Option<u32>
    requires text { length text.now ≤ 32 }
    requires end { length end.now ≤ 7 }
    ensures { TellsSecond (IsSecondAt (text.now ++ end.now)) result }
{
    let mut stamp = ArrayString::<STAMP>::new();
    stamp.push_str(text);
    stamp.push_str(end);
    second_at(stamp.as_str())
}

/// The civil second that begins a date. `None` for any other text.
pub(crate) fn date_second(text: &str) -> Option<u32>
    ensures { TellsSecond (IsDateSecond text.now) result }
{
    if text.len() > LONGEST {
        return None;
    }
    second_behind(text, "T00:00Z")
}

// The civil second of a date and a time of day, or of the midnight of a date alone. `None` for any
// other text.
fn civil_second(text: &str) -> Option<u32>
    ensures { TellsSecond (IsCivilSecond text.now) result }
{
    if text.len() > LONGEST {
        return None;
    }
    if let Some(second) = second_behind(text, "Z") {
        return Some(second);
    }
    date_second(text)
}

// The instant of a civil time in a zone: the first of two in a fold, and the transition in a gap.
// `None` if `text` is no civil time from 1970 to 2100.
fn civil(text: &str, zone: &TimeZone<'_>) -> Option<Timestamp>
    ensures { Tells (IsCivil text.now (plain_zone zone.now))
        (option_map (λ t. t.nanosecond) result) }
{
    match civil_second(text) {
        Some(second) => Some(due_of(zone, second).timestamp()),
        None => None,
    }
}

// The instant that many seconds from another. `None` if no timestamp is there.
fn later(instant: Timestamp, seconds: i64) -> Option<Timestamp>
    requires { IsBetween (neg_ℤ (pos 20_000_000_000_000)) (pos 20_000_000_000_000) seconds }
    ensures { IsTimestamp (instant.nanosecond +ℤ seconds *ℤ pos 1_000_000_000)
        (option_map (λ t. t.nanosecond) result) }
{
    let nanos = instant.as_nanosecond() + i128::from(seconds) * 1_000_000_000;
    match Timestamp::from_nanosecond(nanos) {
        Ok(later) => Some(later),
        Err(_) => None,
    }
}

// The instant of a civil second in a zone, as `civil` has it. `None` outside of 1970 to 2100.
fn instant_at(zone: &TimeZone<'_>, second: i64) -> Option<Timestamp>
    ensures { IsInstantOf (plain_zone zone.now) second (option_map (λ t. t.nanosecond) result) }
{
    if second < 0 {
        return None;
    }
    if second >= SECONDS {
        return None;
    }
    Some(due_of(zone, second as u32).timestamp())
}

// Reads an instant as people say it: a number of seconds away, or a civil time. `None` for any
// other text.
fn spoken(text: &str, zone: &TimeZone<'_>, now: Timestamp) -> Option<Timestamp>
    ensures { IsSpoken text.now (plain_zone zone.now) now.nanosecond
        (option_map (λ t. t.nanosecond) result) }
{
    if let Some(seconds) = seconds_away(text) {
        return later(now, seconds);
    }
    match said_at(text, zone, now) {
        Some(second) => instant_at(zone, second),
        None => None,
    }
}

/// Reads an instant: `now`, `@SECONDS` since 1970, an instant with an offset as `jiff` reads it, a
/// fire as it was printed, a civil time from 1970 to 2100 in the zone, or one as people say it. A
/// civil time in a fold is the first of its two instants, and one in a gap is the transition.
/// `None` for any other text.
pub fn instant_of(text: &str, zone: &TimeZone<'_>, now: Timestamp) -> Option<Timestamp>
    ensures { IsInstant text.now (plain_zone zone.now) now.nanosecond
        (option_map (λ t. t.nanosecond) result) }
{
    if text == "now" {
        return Some(now);
    }
    if let Some(instant) = counted(text) {
        return Some(instant);
    }
    if let Ok(instant) = text.parse::<Timestamp>() {
        return Some(instant);
    }
    if let Some(instant) = printed(text) {
        return Some(instant);
    }
    if let Some(instant) = civil(text, zone) {
        return Some(instant);
    }
    spoken(text, zone, now)
}
