//! Spans of time: START and END, or one word for a whole day, month or night.

ghost use Rattle.std.specs.Prelude.{◌≡◌, ◌<◌, ◌≤◌, MatchBool, MatchOption, MatchResult, ℕ, length, true};
ghost use Rattle.jiff.specs.Words.{plain_zone};
ghost use Rattle.cron_moments.specs.Civil.{seconds_in_range};
ghost use Rattle.cron_answers.specs.Spans.{Begins, HasEnd, HasNoEnd, IsLastBefore, IsNamed, IsNamedTime, IsNoSpan, IsOther, IsSpan, IsWhole};

use crate::back::just_before;
use crate::day::days_named;
use crate::instant::{date_second, instant_of};
use crate::said::shown_second;
use crate::trouble::Trouble;
use cron_dues::way_to::due_of;
use cron_moments::civil::{SECONDS, SECONDS_PER_DAY};
use jiff::Timestamp;
use jiff::tz::TimeZone;

/// The seconds from a midnight to the evening, when tonight begins.
const EVENING: u32 = 64_800;

/// The seconds from the evening to the end of tonight.
const NIGHT: u32 = 43_200;

/// The words that name a span, not read yet.
#[derive(Clone, Copy)]
pub enum Span<'a> {
    /// START and END. The span begins after START, and END is in it.
    Ends(&'a str, &'a str),
    /// One word, such as `today`. The span begins with its first second, and its end isn't in it.
    Whole(&'a str),
}

/// Civil seconds from one on and before another.
#[derive(Clone, Copy)]
struct Seconds {
    from: u32,
    end: u32,
}

// The civil seconds of the day, the month or the night that a text names while the clock shows
// `shown`. `None` if it names none.
fn named(text: &str, shown: u32) -> Option<Seconds>
    requires { shown < seconds_in_range }
    ensures { MatchOption result ((from : ℕ) (end : ℕ) → IsNamed text.now shown from end → ⊥)
        (λ named. IsNamed text.now shown named.from named.end) }
{
    let today = shown / SECONDS_PER_DAY;
    if let Some(days) = days_named(text, today) {
        return Some(Seconds {
            from: days.first * SECONDS_PER_DAY,
            end: days.end * SECONDS_PER_DAY,
        });
    }
    if text != "tonight" {
        return None;
    }
    let from = today * SECONDS_PER_DAY + EVENING;
    Some(Seconds {
        from,
        end: from + NIGHT,
    })
}

// The civil seconds of a date, or of a name at the time `now`. `None` if a text is neither.
fn whole(text: &str, zone: &TimeZone<'_>, now: Timestamp) -> Option<Seconds>
    ensures { MatchOption result
        ((from : ℕ) (end : ℕ) → IsWhole text.now (plain_zone zone.now) now.nanosecond from end → ⊥)
        (λ it. IsWhole text.now (plain_zone zone.now) now.nanosecond it.from it.end) }
{
    if let Some(from) = date_second(text) {
        return Some(Seconds {
            from,
            end: from + SECONDS_PER_DAY,
        });
    }
    match shown_second(zone, now) {
        Some(shown) => named(text, shown),
        None => None,
    }
}

// The last instant before the one at which a civil second begins in a zone. From 2101 on, where
// nothing fires, it is the last of all.
fn last_before(zone: &TimeZone<'_>, second: u32) -> Timestamp
    ensures { IsLastBefore (plain_zone zone.now) second result.nanosecond }
{
    if i64::from(second) >= SECONDS {
        return Timestamp::MAX;
    }
    just_before(due_of(zone, second).timestamp())
}

// The instants of START and END. `Err` has the first that is no instant, or says that START comes
// after END.
fn both_ends<'a>(
    start: &'a str,
    end: &'a str,
    zone: &TimeZone<'_>,
    now: Timestamp,
) -> Result<(Timestamp, Timestamp), Trouble<'a>>
    ensures { MatchResult result
        (λ ends. IsSpan (Span.Ends start.entry end.entry) (plain_zone zone.now) now.nanosecond
        ends.0.nanosecond ends.1.nanosecond)
        (IsNoSpan (Span.Ends start.entry end.entry) (plain_zone zone.now) now.nanosecond) }
{
    let Some(first) = instant_of(start, zone, now) else {
        return Err(Trouble::Instant(start));
    };
    let Some(last) = instant_of(end, zone, now) else {
        return Err(Trouble::Instant(end));
    };
    if last < first {
        return Err(Trouble::Order(start, end));
    }
    Ok((first, last))
}

/// The instant after which a span begins, and the last instant in it. `Err` says what is wrong with
/// its words.
pub fn ends_of<'a>(
    span: &Span<'a>,
    zone: &TimeZone<'_>,
    now: Timestamp,
) -> Result<(Timestamp, Timestamp), Trouble<'a>>
    ensures { MatchResult result
        (λ ends. IsSpan span.now (plain_zone zone.now) now.nanosecond
        ends.0.nanosecond ends.1.nanosecond)
        (IsNoSpan span.now (plain_zone zone.now) now.nanosecond) }
{
    match *span {
        Span::Ends(start, end) => both_ends(start, end, zone, now),
        Span::Whole(word) => match whole(word, zone, now) {
            Some(it) => Ok((last_before(zone, it.from), last_before(zone, it.end))),
            None => Err(Trouble::Whole(word)),
        },
    }
}

// Whether a word is an instant, or names something whole.
fn is_time(word: &str, zone: &TimeZone<'_>, now: Timestamp) -> bool
    ensures { MatchBool result (IsNamedTime word.now (plain_zone zone.now) now.nanosecond)
        (IsOther word.now (plain_zone zone.now) now.nanosecond) }
{
    if instant_of(word, zone, now).is_some() {
        return true;
    }
    whole(word, zone, now).is_some()
}

// Whether the second of some words is an instant.
fn has_end(words: &[&str], zone: &TimeZone<'_>, now: Timestamp) -> bool
    ensures end { MatchBool result (HasEnd words.now (plain_zone zone.now) now.nanosecond)
        (HasNoEnd words.now (plain_zone zone.now) now.nanosecond) }
    ensures two { result ≡ true → 2 ≤ length words.now }
{
    if words.len() < 2 {
        return false;
    }
    instant_of(words[1], zone, now).is_some()
}

/// The span that some words begin with, and the words after it: START and END if the second word is
/// an instant, or else one word that is an instant or names something whole.
pub fn span_before<'a, 'w>(
    words: &'w [&'a str],
    zone: &TimeZone<'_>,
    now: Timestamp,
) -> (Option<Span<'a>>, &'w [&'a str])
    ensures { Begins words.now (plain_zone zone.now) now.nanosecond result.0 result.1.now }
{
    if has_end(words, zone, now) {
        return (Some(Span::Ends(words[0], words[1])), &words[2..]);
    }
    if words.is_empty() {
        return (None, words);
    }
    if is_time(words[0], zone, now) {
        return (Some(Span::Whole(words[0])), &words[1..]);
    }
    (None, words)
}
