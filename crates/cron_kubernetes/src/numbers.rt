//! Reads numbers, names and steps.

ghost use Rattle.std.specs.Prelude.{◌≡◌, ◌<◌, ◌≤◌, ◌^◌, ◌==◌, ◌||◌, slice_index, IfOk, MatchOption, MatchResult, Ok, Err, true};
ghost use Rattle.std.specs.Char.{is_ascii_digit};
ghost use Rattle.std.specs.List.{list_all};
ghost use Rattle.std.specs.Str.{str_eq_ignore_ascii_case};
ghost use Rattle.std.specs.Str.Parse.{digits_value, starts_with_minus, without_leading_sign};
ghost use Rattle.cron_units.specs.Units.{named_in};
ghost use Rattle.cron_units.specs.Tables.{ordinals_view};
ghost use Rattle.cron_crontab.specs.Fields.{names};
ghost use Rattle.cron_kubernetes.specs.Items.{are_digits, number_of, step_of, value_of};
ghost use Rattle.cron_kubernetes.specs.Views.{reason_view};
ghost use Rattle.cron_kubernetes.specs.Inner.Reading.{IsWithin};

use crate::faults::{Reason, greatest};
use cron_crontab::Field;

/// The least number that is too large, also for Go.
const TOO_LARGE: u64 = 1 << 63;

const MONTH_NAMES: [(&str, u32); 12] = [
    ("jan", 1),
    ("feb", 2),
    ("mar", 3),
    ("apr", 4),
    ("may", 5),
    ("jun", 6),
    ("jul", 7),
    ("aug", 8),
    ("sep", 9),
    ("oct", 10),
    ("nov", 11),
    ("dec", 12),
];

const DAY_NAMES: [(&str, u32); 7] = [
    ("sun", 0),
    ("mon", 1),
    ("tue", 2),
    ("wed", 3),
    ("thu", 4),
    ("fri", 5),
    ("sat", 6),
];

// Returns true if `name` and `other` are the same but for the case of their letters.
fn is_same_name(name: &str, other: &str) -> bool
    ensures { result ≡ str_eq_ignore_ascii_case name.now other.now }
{
    let (name, other) = (name.as_bytes(), other.as_bytes());
    if name.len() != other.len() {
        return false;
    }
    for at in 0..name.len() {
        if !name[at].eq_ignore_ascii_case(&other[at]) {
            return false;
        }
    }
    true
}

// The number of the name `sought`, in any case of its letters. `None` if it isn't in `names`.
fn number_in(names: &[(&str, u32)], sought: &str) -> Option<u32>
    ensures { result ≡ named_in (ordinals_view names.now) sought.now }
{
    for (name, number) in names {
        if is_same_name(name, sought) {
            return Some(*number);
        }
    }
    None
}

// The number of the month or day whose name of three letters is `name`.
fn number_named(field: Field, name: &str) -> Option<u32>
    ensures { result ≡ named_in (names field) name.now }
{
    match field {
        Field::Month => number_in(&MONTH_NAMES, name),
        Field::DayOfWeek => number_in(&DAY_NAMES, name),
        Field::Minute | Field::Hour | Field::DayOfMonth => None,
    }
}

/// Returns true if each byte of `text` is a digit.
pub(crate) fn are_all_digits(text: &[u8]) -> bool
    ensures { result ≡ list_all is_ascii_digit text.now }
{
    for byte in text {
        if !byte.is_ascii_digit() {
            return false;
        }
    }
    true
}

/// The number that `digits` spell, and `None` if it is 2^64 at least.
pub(crate) fn digits_value(digits: &str) -> Option<u64>
    requires { are_digits digits.now ≡ true }
    ensures { MatchOption result
        (2 ^ 64 ≤ digits_value 10 digits.now) (λ n. n ≡ digits_value 10 digits.now) }
{
    digits.parse::<u64>().ok()
}

fn begins_with_sign(text: &str) -> bool
    ensures { result ≡ (slice_index text.now 0 == 43 || slice_index text.now 0 == 45) }
{
    match text.as_bytes().first() {
        Some(byte) => *byte == b'+' || *byte == b'-',
        None => false,
    }
}

/// What follows the sign of `text`, or all of it if it has no sign.
pub(crate) fn without_sign(text: &str) -> &str
    ensures { result.now ≡ without_leading_sign text.now }
{
    if begins_with_sign(text) {
        &text[1..]
    } else {
        text
    }
}

fn starts_with_minus(text: &str) -> bool
    ensures { result ≡ starts_with_minus text.now }
{
    match text.as_bytes().first() {
        Some(byte) => *byte == b'-',
        None => false,
    }
}

fn read_value(text: &str) -> Result<u64, Reason<'_>>
    ensures { MatchResult result
        (λ n. value_of text.now ≡ Ok n) (λ r. value_of text.now ≡ Err (reason_view r)) }
{
    if text.is_empty() {
        return Err(Reason::Missing);
    }
    let digits = without_sign(text);
    if digits.is_empty() || !are_all_digits(digits.as_bytes()) {
        return Err(Reason::NoNumber(text));
    }
    match digits_value(digits) {
        Some(number) if number < TOO_LARGE => {
            if 0 < number && starts_with_minus(text) {
                Err(Reason::Negative(text))
            } else {
                Ok(number)
            }
        }
        _ => Err(Reason::TooLarge(text)),
    }
}

/// Reads a number of a field, or a name.
pub(crate) fn read_number<'a>(field: Field, text: &'a str) -> Result<u32, Reason<'a>>
    ensures number { MatchResult result
        (λ n. number_of field text.now ≡ Ok n)
        (λ r. number_of field text.now ≡ Err (reason_view r)) }
    ensures within { IfOk result (IsWithin field) }
{
    let number = match number_named(field, text) {
        Some(number) => u64::from(number),
        None => read_value(text)?,
    };
    if number < u64::from(field.least()) || u64::from(greatest(field)) < number {
        return Err(Reason::Outside(number));
    }
    Ok(number as u32)
}

/// Reads a step: a number that is 1 at least.
pub(crate) fn read_step(text: &str) -> Result<u64, Reason<'_>>
    ensures step { MatchResult result
        (λ n. step_of text.now ≡ Ok n) (λ r. step_of text.now ≡ Err (reason_view r)) }
    ensures positive { IfOk result (λ n. 0 < n) }
{
    let step = read_value(text)?;
    if step == 0 {
        return Err(Reason::ZeroStep);
    }
    Ok(step)
}
