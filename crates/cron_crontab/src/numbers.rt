//! Reads numbers, names and steps.

ghost use Rattle.std.specs.Prelude.{◌≡◌, ◌<◌, ◌≤◌, ℕ, IfOk, IfSome, MatchOption, MatchResult, Result, Ok, Err, length, slice_index, true, false};
ghost use Rattle.std.specs.Char.{is_ascii_alphabetic, is_ascii_alphanumeric, is_ascii_digit};
ghost use Rattle.std.specs.List.{list_all, prefix_len};
ghost use Rattle.std.specs.Str.Parse.{digits_value};
ghost use Rattle.cron_crontab.specs.Refusals as refusals;
ghost use Rattle.cron_crontab.specs.Items.{behind, front, number_of, spelt, step_of};
ghost use Rattle.cron_crontab.specs.Views.{reason_view};
ghost use Rattle.cron_crontab.specs.Inner.Reading.{AreDigits, IsNamed, IsNumber, IsWithin, spelling_view};

use crate::faults::Reason;
use crate::field::Field;

/// The most digits that a number may have. 32 bits hold every such number.
const MOST_DIGITS: usize = 9;

/// The number of letters and digits at the front of `text`.
#[inline(always)]
fn front_len(text: &[u8]) -> usize
    ensures { result ≡ prefix_len is_ascii_alphanumeric text.now }
{
    for (at, byte) in text.iter().enumerate() {
        if !byte.is_ascii_alphanumeric() {
            return at;
        }
    }
    text.len()
}

/// Cuts `text` into the letters and digits at its front and the rest.
#[inline(always)]
fn cut_front(text: &str) -> (&str, &str)
    ensures front { result.0.now ≡ front text.now }
    ensures behind { result.1.now ≡ behind text.now }
{
    let end = front_len(text.as_bytes());
    (&text[..end], &text[end..])
}

#[inline(always)]
fn are_digits(text: &[u8]) -> bool
    ensures { result ≡ list_all is_ascii_digit text.now }
{
    for byte in text {
        if !byte.is_ascii_digit() {
            return false;
        }
    }
    true
}

/// The number that `text` spells in digits. `None` if it isn't one to nine digits. Each digit is
/// read once.
#[inline(always)]
fn lone_digits(text: &[u8]) -> Option<u32>
    ensures { MatchOption result
        (0 < length text.now → list_all is_ascii_digit text.now ≡ true → 9 < length text.now)
        (AreDigits text.now) }
{
    if text.is_empty() || text.len() > MOST_DIGITS {
        return None;
    }
    let mut value: u32 = 0;
    for digit in text {
        if !digit.is_ascii_digit() {
            return None;
        }
        value = value * 10 + u32::from(*digit - b'0');
    }
    Some(value)
}

/// What a run of letters and digits spells.
#[derive(Clone, Copy)]
enum Spelling {
    Number(u32),
    /// More than nine digits.
    Long,
    /// Nothing, or a run with letters.
    Other,
}

#[inline(always)]
fn spelling_of(text: &[u8]) -> Spelling
    ensures { (other : Result ℕ refusals.Reason)
        → spelt text.now other ≡ spelling_view other result }
{
    match lone_digits(text) {
        Some(number) => Spelling::Number(number),
        None if text.is_empty() || !are_digits(text) => Spelling::Other,
        None => Spelling::Long,
    }
}

#[inline(always)]
fn are_letters(text: &[u8]) -> bool
    ensures { result ≡ list_all is_ascii_alphabetic text.now }
{
    for byte in text {
        if !byte.is_ascii_alphabetic() {
            return false;
        }
    }
    true
}

/// The number of the month or day whose name of three letters is `text`. `None` if `field` has no
/// such name.
#[inline(always)]
fn lone_name(field: Field, text: &str) -> Option<u32>
    ensures { IfSome result (IsNamed field text.now) }
{
    if text.len() != 3 || !are_letters(text.as_bytes()) {
        return None;
    }
    field.number_named(text)
}

/// The number of `field` that the whole of `text` spells or names. `None` if it is no such number.
#[inline(always)]
pub(crate) fn lone_number(field: Field, text: &str) -> Option<u32>
    ensures { IfSome result (IsNumber field text.now) }
{
    let number = match lone_digits(text.as_bytes()) {
        Some(number) => number,
        None => lone_name(field, text)?,
    };
    if field.least() <= number && number <= field.greatest() {
        Some(number)
    } else {
        None
    }
}

/// Reads a number of `field`, or a name, if `lone_number` doesn't take it. The error says why
/// `text` is refused.
fn read_front<'a>(field: Field, text: &'a str) -> Result<u32, Reason<'a>>
    ensures number { MatchResult result
        (λ n. number_of field text.now ≡ Ok n)
        (λ r. number_of field text.now ≡ Err (reason_view r)) }
    ensures within { IfOk result (IsWithin field) }
{
    if text.is_empty() {
        return Err(Reason::Missing);
    }
    let (front, rest) = cut_front(text);
    let number = match spelling_of(front.as_bytes()) {
        Spelling::Number(number) => number,
        Spelling::Long => return Err(Reason::LongNumber),
        Spelling::Other => match field.number_named(front) {
            Some(number) => number,
            None => return Err(Reason::NoNumber(text)),
        },
    };
    if number < field.least() || field.greatest() < number {
        return Err(Reason::Outside(number));
    }
    if !rest.is_empty() {
        return Err(Reason::Ignored(front));
    }
    Ok(number)
}

/// Reads a number of a field, or a name.
#[inline(always)]
pub(crate) fn read_number<'a>(field: Field, text: &'a str) -> Result<u32, Reason<'a>>
    ensures number { MatchResult result
        (λ n. number_of field text.now ≡ Ok n)
        (λ r. number_of field text.now ≡ Err (reason_view r)) }
    ensures within { IfOk result (IsWithin field) }
{
    match lone_number(field, text) {
        Some(number) => Ok(number),
        None => read_front(field, text),
    }
}

/// Reads a step: a number of at most nine digits, and at least 1.
#[inline(always)]
pub(crate) fn read_step(text: &str) -> Result<u32, Reason<'_>>
    ensures step { MatchResult result
        (λ n. step_of text.now ≡ Ok n) (λ r. step_of text.now ≡ Err (reason_view r)) }
    ensures positive { IfOk result (λ n. 0 < n) }
{
    if text.is_empty() {
        return Err(Reason::Missing);
    }
    let (front, behind) = cut_front(text);
    let step = match spelling_of(front.as_bytes()) {
        Spelling::Number(step) => step,
        Spelling::Long => return Err(Reason::LongNumber),
        Spelling::Other => return Err(Reason::NoStep(text)),
    };
    if step == 0 {
        return Err(Reason::ZeroStep);
    }
    if !behind.is_empty() {
        return Err(Reason::Ignored(front));
    }
    Ok(step)
}
