//! Whole expressions, and the schedules that they mean.

ghost use Rattle.std.specs.Prelude.{◌≡◌, MatchResult, Ok, Err};
ghost use Rattle.std.specs.Option.{option_map};
ghost use Rattle.cron_quartz.specs.Quartz.{Means, Refuses, times_of, years_of};
ghost use Rattle.cron_quartz.specs.Views.{fault_view};
ghost use Rattle.cron_quartz.specs.FormViews.{texts_view};

use crate::days::read_days;
use crate::faults::Fault;
use crate::field::Field;
use crate::forms::schedules_of;
use crate::schedules::Expression;
use crate::sets::read_set;
use crate::texts::{Texts, cut_fields};
use cron_units::fields::ScheduleFields;
use cron_units::time_unit::{Years, whole};

// Reads the field of years. All years are meant if there is no such field.
fn read_years(word: Option<&str>) -> Result<Years, Fault<'_>>
    ensures { MatchResult result
        (λ years. years_of (option_map (λ w. w.now) word.entry) ≡ Ok years)
        (λ fault. years_of (option_map (λ w. w.now) word.entry) ≡ Err (fault_view fault)) }
{
    match word {
        Some(word) => read_set(Field::Year, word),
        None => Ok(whole()),
    }
}

// Reads all fields but the two of days. The schedule that it returns has all days.
fn read_times<'a>(texts: Texts<'a>) -> Result<ScheduleFields, Fault<'a>>
    ensures { MatchResult result
        (λ times. times_of (texts_view texts.entry) ≡ Ok times)
        (λ fault. times_of (texts_view texts.entry) ≡ Err (fault_view fault)) }
{
    let seconds = read_set(Field::Second, texts.second)?;
    let minutes = read_set(Field::Minute, texts.minute)?;
    let hours = read_set(Field::Hour, texts.hour)?;
    let months = read_set(Field::Month, texts.month)?;
    let years = read_years(texts.year)?;
    Ok(ScheduleFields {
        seconds,
        minutes,
        hours,
        days_of_month: whole(),
        months,
        days_of_week: whole(),
        years,
    })
}

/// Reads an expression of Quartz: six fields or seven, with white space around and between them.
pub fn read(text: &str) -> Result<Expression, Fault<'_>>
    ensures { MatchResult result
        (λ e. Means text.now e) (λ fault. Refuses text.now (fault_view fault)) }
{
    let texts = cut_fields(text)?;
    let times = read_times(texts)?;
    let days = read_days(texts.day_of_month, texts.day_of_week)?;
    Ok(schedules_of(&days, &times))
}
