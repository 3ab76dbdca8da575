//! Warnings of the fields of an entry, by their text and by what they mean.

ghost use Rattle.std.specs.Prelude.{◌≡◌, ◌↔◌, IsTrue};
ghost use Rattle.cron_crontab.specs.Views.{expression_view};
ghost use Rattle.cron_tab_warnings.specs.Warnings.{AllAreListed, Warns, has_seventh, has_sixth, in_numbers, is_numbers, is_sixth, is_so};

use crate::days::{has_each_minute, is_star_step, leaves_out, restricts_both};
use crate::fires::never_runs;
use crate::items::{Test, has_item, is_field};
use crate::words::{field_word, has_fields, word_at};
use cron_crontab::{Expression, Field};
use cron_tab_lines::Crontab;

/// What is probably a mistake in the fields of an entry.
#[derive(Clone, Copy, Debug, PartialEq, Eq)]
pub enum Warning {
    /// No civil second of 1970 to 2100 matches: `0 0 30 2 *`.
    NeverFires,
    /// A range goes from a greater number to a lesser one, and has no number: `22-2`.
    Backward(Field),
    /// A step is longer than its range, so that only the range's first number is left: `*/60`.
    StepPastEnd(Field),
    /// A step over a whole field doesn't divide it, so that the field begins anew within a step:
    /// `*/7`.
    UnevenStep(Field),
    /// Only one kind of day begins with a star, and it leaves days out, so that both kinds must
    /// match: `0 0 */2 * sun`.
    StarStep(Field),
    /// A month that is named lacks a day that is named, in some or all years: `0 0 31 * *`.
    LeftOutDays,
    /// Neither kind of day begins with a star, so that one that matches suffices: `0 0 1-7 * mon`.
    EitherDays,
    /// The minute begins with a star and leaves none out, and the hour leaves hours out:
    /// `* 3 * * *`.
    EachMinute,
    /// The first word after five fields is itself a field of days of the week, as in an expression
    /// that begins with seconds, or a question mark. A user's name, such as `sun` in a system
    /// crontab, is no field.
    SixFields,
    /// The first two words after five fields are themselves fields, the second one of numbers, as
    /// the years of an expression that begins with seconds.
    SevenFields,
}

/// All warnings of fields, each once.
pub const WARNINGS: [Warning; 23] = [
    Warning::NeverFires,
    Warning::Backward(Field::Minute),
    Warning::Backward(Field::Hour),
    Warning::Backward(Field::DayOfMonth),
    Warning::Backward(Field::Month),
    Warning::Backward(Field::DayOfWeek),
    Warning::StepPastEnd(Field::Minute),
    Warning::StepPastEnd(Field::Hour),
    Warning::StepPastEnd(Field::DayOfMonth),
    Warning::StepPastEnd(Field::Month),
    Warning::StepPastEnd(Field::DayOfWeek),
    Warning::UnevenStep(Field::Minute),
    Warning::UnevenStep(Field::Hour),
    Warning::UnevenStep(Field::DayOfMonth),
    Warning::UnevenStep(Field::Month),
    Warning::UnevenStep(Field::DayOfWeek),
    Warning::StarStep(Field::DayOfMonth),
    Warning::StarStep(Field::DayOfWeek),
    Warning::LeftOutDays,
    Warning::EitherDays,
    Warning::EachMinute,
    Warning::SixFields,
    Warning::SevenFields,
];

fn in_numbers(byte: u8) -> bool
    ensures { result ≡ in_numbers byte }
{
    byte.is_ascii_digit() || byte == b',' || byte == b'-' || byte == b'*' || byte == b'/'
}

/// Returns true if `word` isn't empty and has only digits, commas, dashes, stars and slashes.
fn is_numbers(word: &str) -> bool
    ensures { result ≡ is_numbers word.now }
{
    for byte in word.as_bytes() {
        if !in_numbers(*byte) {
            return false;
        }
    }
    !word.is_empty()
}

/// Returns true if `word`, the word after five fields, is itself a field of days of the week. In a
/// system crontab it must be in numbers, since a user may have a day's name.
fn is_sixth(kind: Crontab, word: &str) -> bool
    ensures { result ≡ is_sixth kind word.now }
{
    match kind {
        Crontab::User => is_field(Field::DayOfWeek, word),
        Crontab::System => is_numbers(word) && is_field(Field::DayOfWeek, word),
    }
}

fn has_sixth(kind: Crontab, text: &str) -> bool
    ensures { result ≡ has_sixth kind text.now }
{
    let word = word_at(text, 5);
    word == "?" || is_sixth(kind, word)
}

fn has_seventh(kind: Crontab, text: &str) -> bool
    ensures { result ≡ has_seventh kind text.now }
{
    has_sixth(kind, text) && is_numbers(word_at(text, 6))
}

fn is_so(kind: Crontab, warning: Warning, text: &str) -> bool
    ensures { result ≡ is_so kind warning text.now }
{
    match warning {
        Warning::NeverFires => false,
        Warning::Backward(field) => has_item(Test::Backward, field, field_word(text, field)),
        Warning::StepPastEnd(field) => has_item(Test::PastEnd, field, field_word(text, field)),
        Warning::UnevenStep(field) => has_item(Test::Uneven, field, field_word(text, field)),
        Warning::StarStep(field) => is_star_step(field, text),
        Warning::LeftOutDays => leaves_out(text),
        Warning::EitherDays => restricts_both(text),
        Warning::EachMinute => has_each_minute(text),
        Warning::SixFields => has_sixth(kind, text) && !has_seventh(kind, text),
        Warning::SevenFields => has_seventh(kind, text),
    }
}

/// Returns true if `warning` applies to an expression, by its text and its meaning. `text` may also
/// be a crontab line that begins with the fields. Only `SixFields` and `SevenFields` look at what
/// follows the fifth field.
pub fn warns(kind: Crontab, warning: Warning, text: &str, expression: &Expression) -> bool
    ensures { IsTrue result ↔ Warns kind warning text.now (expression_view expression.now) }
{
    match warning {
        Warning::NeverFires => never_runs(expression),
        _ => has_fields(text) && is_so(kind, warning, text),
    }
}

/// Each warning that applies to some text is in `WARNINGS`.
pub fn all_are_listed()
    ensures { AllAreListed WARNINGS }
{}
