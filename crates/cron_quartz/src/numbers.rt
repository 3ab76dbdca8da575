//! Reads numbers, names and steps.

ghost use Rattle.std.specs.Prelude.{◌≡◌, ◌<◌, ◌≤◌, ℕ, IfOk, IfSome, MatchResult, MatchOption, Ok, Err, length, true, false};
ghost use Rattle.std.specs.Char.{is_ascii_digit};
ghost use Rattle.std.specs.List.{list_all};
ghost use Rattle.std.specs.Str.Parse.{digits_value};
ghost use Rattle.cron_quartz.specs.Items.{end_of, name_of, number_in, step_of, value_of};
ghost use Rattle.cron_quartz.specs.Views.{end_view, reason_view};

use crate::faults::Reason;
use cron_units::time_unit::TimeUnitField;

/// The most digits that a number may have. 32 bits hold every such number.
const MOST_DIGITS: usize = 9;

/// A number of a field, and whether it is written as a name.
#[derive(Clone, Copy)]
pub(crate) struct End {
    pub number: u32,
    pub named: bool,
}

fn are_digits(text: &[u8]) -> bool
    ensures { result ≡ list_all is_ascii_digit text.now }
{
    for byte in text {
        if !byte.is_ascii_digit() {
            return false;
        }
    }
    true
}

// The number that `digits` spell.
fn value_of(digits: &[u8]) -> u32
    requires few { length digits.now ≤ 9 }
    requires digits { list_all is_ascii_digit digits.now ≡ true }
    ensures { result ≡ digits_value 10 digits.now }
{
    let mut value: u32 = 0;
    for digit in digits {
        value = value * 10 + u32::from(*digit - b'0');
    }
    value
}

fn read_value(text: &str) -> Result<u32, Reason<'_>>
    ensures { MatchResult result
        (λ n. value_of text.now ≡ Ok n) (λ r. value_of text.now ≡ Err (reason_view r)) }
{
    if text.is_empty() {
        return Err(Reason::Missing);
    }
    if !are_digits(text.as_bytes()) {
        return Err(Reason::NoNumber(text));
    }
    if text.len() > MOST_DIGITS {
        return Err(Reason::LongNumber);
    }
    Ok(value_of(text.as_bytes()))
}

/// Reads digits that spell a number from `low` to `high`.
pub(crate) fn read_number(text: &str, low: u32, high: u32) -> Result<u32, Reason<'_>>
    ensures number { MatchResult result
        (λ n. number_in low high text.now ≡ Ok n)
        (λ r. number_in low high text.now ≡ Err (reason_view r)) }
    ensures within { IfOk result (λ n. (low ≤ n) × (n ≤ high)) }
{
    let number = read_value(text)?;
    if low <= number && number <= high {
        Ok(number)
    } else {
        Err(Reason::Outside(number, low, high))
    }
}

// The number whose name of three letters is `text`. `None` if the field has no such name.
fn number_named<T: TimeUnitField>(text: &str) -> Option<u32>
    ensures name { result ≡ name_of T.unit text.now }
    ensures within { IfSome result (λ n. (T.unit.least ≤ n) × (n ≤ T.unit.greatest)) }
{
    if text.len() == 3 {
        T::ordinal_from_name(text)
    } else {
        None
    }
}

/// Reads a number of a field, or a name.
pub(crate) fn read_end<T: TimeUnitField>(text: &str) -> Result<End, Reason<'_>>
    ensures end { MatchResult result
        (λ e. end_of T.unit text.now ≡ Ok (end_view e))
        (λ r. end_of T.unit text.now ≡ Err (reason_view r)) }
    ensures within { IfOk result (λ e. (T.unit.least ≤ e.number) × (e.number ≤ T.unit.greatest)) }
{
    if let Some(number) = number_named::<T>(text) {
        return Ok(End {
            number,
            named: true,
        });
    }
    let number = read_number(text, T::inclusive_min(), T::inclusive_max())?;
    Ok(End {
        number,
        named: false,
    })
}

/// Reads a step: a number from 1 to the greatest number of the field.
pub(crate) fn read_step<T: TimeUnitField>(text: &str) -> Result<u32, Reason<'_>>
    ensures step { MatchResult result
        (λ n. step_of T.unit text.now ≡ Ok n)
        (λ r. step_of T.unit text.now ≡ Err (reason_view r)) }
    ensures positive { IfOk result (λ n. 0 < n) }
{
    let step = read_value(text)?;
    let most = T::inclusive_max();
    if 0 < step && step <= most {
        Ok(step)
    } else {
        Err(Reason::OutsideStep(step, most))
    }
}
