//! The words of an expression, one for each field, in their order.

ghost use Rattle.std.specs.Prelude.{◌≡◌, MatchResult, Ok, Err};
ghost use Rattle.std.specs.Option.{option_map};
ghost use Rattle.cron_crontab.specs.Crontab.{words};
ghost use Rattle.cron_quartz.specs.Quartz.{texts_of, word_of, year_of};
ghost use Rattle.cron_quartz.specs.Fields.{unit_of};
ghost use Rattle.cron_quartz.specs.Views.{fault_view};
ghost use Rattle.cron_quartz.specs.FormViews.{texts_view};

use crate::faults::Fault;
use crate::field::Field;
use cron_crontab::next_word;

/// The word of each field. The field of years may be missing.
#[derive(Clone, Copy)]
pub(crate) struct Texts<'a> {
    pub second: &'a str,
    pub minute: &'a str,
    pub hour: &'a str,
    pub day_of_month: &'a str,
    pub month: &'a str,
    pub day_of_week: &'a str,
    pub year: Option<&'a str>,
}

// The first word of `text`, which is the word of `field`, and the text after it.
fn next_field<'a>(field: Field, text: &'a str) -> Result<(&'a str, &'a str), Fault<'a>>
    ensures { MatchResult result
        (λ r. word_of (unit_of field) (words text.now) ≡ Ok (r.0.now, words r.1.now))
        (λ fault. word_of (unit_of field) (words text.now) ≡ Err (fault_view fault)) }
{
    match next_word(text) {
        Some(found) => Ok(found),
        None => Err(Fault::NoField(field)),
    }
}

// The word of the field of years, or `None` if `text` has no word. A second word is refused.
fn last_field(text: &str) -> Result<Option<&str>, Fault<'_>>
    ensures { MatchResult result
        (λ year. year_of (words text.now) ≡ Ok (option_map (λ word. word.now) year))
        (λ fault. year_of (words text.now) ≡ Err (fault_view fault)) }
{
    let Some((year, rest)) = next_word(text) else {
        return Ok(None);
    };
    match next_word(rest) {
        None => Ok(Some(year)),
        Some((more, _)) => Err(Fault::EighthField(more)),
    }
}

/// Cuts a text into the words of six fields or seven.
pub(crate) fn cut_fields(text: &str) -> Result<Texts<'_>, Fault<'_>>
    ensures { MatchResult result
        (λ t. texts_of (words text.now) ≡ Ok (texts_view t))
        (λ fault. texts_of (words text.now) ≡ Err (fault_view fault)) }
{
    let (second, rest) = next_field(Field::Second, text)?;
    let (minute, rest) = next_field(Field::Minute, rest)?;
    let (hour, rest) = next_field(Field::Hour, rest)?;
    let (day_of_month, rest) = next_field(Field::DayOfMonth, rest)?;
    let (month, rest) = next_field(Field::Month, rest)?;
    let (day_of_week, rest) = next_field(Field::DayOfWeek, rest)?;
    let year = last_field(rest)?;
    Ok(Texts {
        second,
        minute,
        hour,
        day_of_month,
        month,
        day_of_week,
        year,
    })
}
