//! Durations as Go writes them.

ghost use Rattle.std.specs.Prelude.{◌≡◌, ◌<◌, ◌≤◌, ◌^◌, ◌∷◌, Some, MatchOption, true, not, length};
ghost use Rattle.std.specs.Char.{is_ascii_digit};
ghost use Rattle.std.specs.List.{list_all, list_any, prefix_len};
ghost use Rattle.std.specs.Str.{IsUtf8};
ghost use Rattle.std.specs.Str.Parse.{digits_value};
ghost use Rattle.cron_units.specs.Tables.{ordinals_view};
ghost use Rattle.cron_kubernetes.specs.Durations.{are_parts, is_duration, is_number, is_numeral, part, parts, span_of_part, unit_in, units};
ghost use Rattle.cron_kubernetes.specs.Inner.Spans.{IsTooLong};

use crate::numbers::{are_all_digits, digits_value, without_sign};

/// The units with their nanoseconds; the micro sign and the Greek letter are the same.
const UNITS: [(&str, u64); 8] = [
    ("ns", 1),
    ("us", 1_000),
    ("µs", 1_000),
    ("μs", 1_000),
    ("ms", 1_000_000),
    ("s", 1_000_000_000),
    ("m", 60_000_000_000),
    ("h", 3_600_000_000_000),
];

/// The least span that is too long, also for Go.
const TOO_LONG: u64 = 1 << 63;

fn is_numeral(byte: u8) -> bool
    ensures { result ≡ is_numeral byte }
{
    byte.is_ascii_digit() || byte == b'.'
}

// The number of digits and points at the front of `text`.
fn number_len(text: &[u8]) -> usize
    ensures { result ≡ prefix_len is_numeral text.now }
{
    for (at, byte) in text.iter().enumerate() {
        if !is_numeral(*byte) {
            return at;
        }
    }
    text.len()
}

// The number of bytes at the front of `text` that are neither digits nor points.
fn unit_len(text: &[u8]) -> usize
    ensures { result ≡ prefix_len (λ c. not (is_numeral c)) text.now }
{
    for (at, byte) in text.iter().enumerate() {
        if is_numeral(*byte) {
            return at;
        }
    }
    text.len()
}

// The number of digits at the front of `text`.
fn whole_len(text: &[u8]) -> usize
    ensures { result ≡ prefix_len is_ascii_digit text.now }
{
    for (at, byte) in text.iter().enumerate() {
        if !byte.is_ascii_digit() {
            return at;
        }
    }
    text.len()
}

fn has_digit(text: &[u8]) -> bool
    ensures { result ≡ list_any is_ascii_digit text.now }
{
    for byte in text {
        if byte.is_ascii_digit() {
            return true;
        }
    }
    false
}

// Returns true if `text`, of digits and points, has at least one digit and at most one point.
fn is_number(text: &[u8]) -> bool
    ensures { result ≡ is_number text.now }
{
    let end = whole_len(text);
    has_digit(text) && (end >= text.len() || are_all_digits(&text[end + 1..]))
}

// The number that `table` has for the name `sought`, or `None` if it has none.
fn number_beside(table: &[(&str, u64)], sought: &str) -> Option<u64>
    ensures { result ≡ unit_in (ordinals_view table.now) sought.now }
{
    for (name, number) in table {
        if sought == *name {
            return Some(*number);
        }
    }
    None
}

// The nanoseconds of a unit. `None` if `text` is no unit.
fn unit_of(text: &str) -> Option<u64>
    ensures { result ≡ unit_in units text.now }
{
    number_beside(&UNITS, text)
}

// The number that `text` spells in digits, or 0 if it is empty. `None` if it is 2^64 at least.
fn whole_of(text: &str) -> Option<u64>
    requires { list_all is_ascii_digit text.now ≡ true }
    ensures { MatchOption result
        (2 ^ 64 ≤ digits_value 10 text.now) (λ n. n ≡ digits_value 10 text.now) }
{
    if text.is_empty() {
        return Some(0);
    }
    digits_value(text)
}

// The nanoseconds of a part, without those behind the point. `None` if it is no part, or too long.
fn span_of(number: &str, unit: &str) -> Option<u64>
    ensures { MatchOption result
        (IsTooLong (span_of_part (part number.now unit.now)))
        (λ n. span_of_part (part number.now unit.now) ≡ Some n) }
{
    if !is_number(number.as_bytes()) {
        return None;
    }
    let nanoseconds = unit_of(unit)?;
    let whole = whole_of(&number[..whole_len(number.as_bytes())])?;
    whole.checked_mul(nanoseconds)
}

// Cuts `text` into its first number, its unit, and the text behind them.
fn cut_part(text: &str) -> (&str, &str, &str)
    requires { 0 < length text.now }
    ensures parts { parts text.now ≡ part result.0.now result.1.now ∷ parts result.2.now }
    ensures text { IsUtf8 result.2.now }
    ensures shorter { length result.2.now < length text.now }
{
    let behind = &text[number_len(text.as_bytes())..];
    let number = &text[..number_len(text.as_bytes())];
    let end = unit_len(behind.as_bytes());
    (number, &behind[..end], &behind[end..])
}

// Returns true if `text` is parts of less than 2^63 nanoseconds in all.
fn are_parts(text: &str) -> bool
    ensures { result ≡ are_parts text.now }
{
    if text.is_empty() {
        return false;
    }
    let (mut total, mut rest) = (0_u64, text);
    while !rest.is_empty() {
        let (number, unit, behind) = cut_part(rest);
        let Some(span) = span_of(number, unit) else {
            return false;
        };
        match total.checked_add(span) {
            Some(sum) => total = sum,
            None => return false,
        }
        rest = behind;
    }
    total < TOO_LONG
}

/// Returns true if `text` is a duration of less than 2^63 nanoseconds.
pub(crate) fn is_duration(text: &str) -> bool
    ensures { result ≡ is_duration text.now }
{
    let unsigned = without_sign(text);
    unsigned == "0" || are_parts(unsigned)
}
