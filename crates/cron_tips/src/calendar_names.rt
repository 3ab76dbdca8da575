//! Names of months and days, and the words of refused expressions that are no such name.

ghost use Rattle.std.specs.Prelude.{◌≡◌, ℕ, Option, IfOk, map};
ghost use Rattle.std.specs.Option.{option_map};
ghost use Rattle.cron_tips.specs.CalendarNames.{IsNear, crontab_word, names_of, own_word, quartz_word, texts_of};

use crate::nearness::{nearest, text_at};
use cron_units::specifier::Refusal;
use std::alloc::{AllocError, Global};

/// Texts that mean months.
const MONTH_TEXTS: [&str; 24] = [
    "jan",
    "feb",
    "mar",
    "apr",
    "may",
    "jun",
    "jul",
    "aug",
    "sep",
    "oct",
    "nov",
    "dec",
    "january",
    "february",
    "march",
    "april",
    "june",
    "july",
    "august",
    "sept",
    "september",
    "october",
    "november",
    "december",
];

/// The name of the month that each of these texts means.
const MONTHS: [&str; 24] = [
    "jan", "feb", "mar", "apr", "may", "jun", "jul", "aug", "sep", "oct", "nov", "dec", "jan",
    "feb", "mar", "apr", "jun", "jul", "aug", "sep", "sep", "oct", "nov", "dec",
];

/// Texts that mean days of the week.
const DAY_TEXTS: [&str; 17] = [
    "sun",
    "mon",
    "tue",
    "wed",
    "thu",
    "fri",
    "sat",
    "sunday",
    "monday",
    "tues",
    "tuesday",
    "wednesday",
    "thur",
    "thurs",
    "thursday",
    "friday",
    "saturday",
];

/// The name of the day that each of these texts means.
const DAYS: [&str; 17] = [
    "sun", "mon", "tue", "wed", "thu", "fri", "sat", "sun", "mon", "tue", "tue", "wed", "thu",
    "thu", "thu", "fri", "sat",
];

/// Whose names a field takes.
#[derive(Clone, Copy)]
pub enum Names {
    Months,
    Days,
}

impl Names {
    // Texts that mean one of them.
    fn texts(self) -> &'static [&'static str]
        ensures { map (λ text. text.now) result.now ≡ texts_of self }
    {
        match self {
            Names::Months => &MONTH_TEXTS,
            Names::Days => &DAY_TEXTS,
        }
    }

    // The name in three letters that each of the texts means.
    fn names(self) -> &'static [&'static str]
        ensures { map (λ name. name.now) result.now ≡ names_of self }
    {
        match self {
            Names::Months => &MONTHS,
            Names::Days => &DAYS,
        }
    }

    /// The name in three letters that `word` most likely means: that of the text that is nearest to
    /// it.
    pub fn near(self, alloc: Global, word: &str) -> Result<Option<&'static str>, AllocError>
        ensures { IfOk result (λ name. IsNear self word.now (option_map (λ name. name.now) name)) }
    {
        let at = nearest(alloc, word, self.texts())?;
        Ok(text_at(self.names(), at))
    }
}

/// A word of a refused expression that is no name, where a name of these may stand.
#[derive(Clone, Copy)]
pub struct NoName<'a> {
    pub names: Names,
    pub word: &'a str,
}

/// The word of a crontab's expression that is no name of a month or a day, if that is its fault.
pub fn crontab_word<'a>(fault: &cron_crontab::Fault<'a>) -> Option<NoName<'a>>
    ensures { result ≡ crontab_word fault.now }
{
    let cron_crontab::Fault::Refused(item) = fault else {
        return None;
    };
    let cron_crontab::Reason::NoNumber(word) = item.reason else {
        return None;
    };
    let names = match item.field {
        cron_crontab::Field::Month => Names::Months,
        cron_crontab::Field::DayOfWeek => Names::Days,
        _ => return None,
    };
    Some(NoName { names, word })
}

/// The same for an expression of Quartz.
pub fn quartz_word<'a>(fault: &cron_quartz::Fault<'a>) -> Option<NoName<'a>>
    ensures { result ≡ quartz_word fault.now }
{
    let cron_quartz::Fault::Refused(item) = fault else {
        return None;
    };
    let cron_quartz::Reason::NoNumber(word) = item.reason else {
        return None;
    };
    let names = match item.field {
        cron_quartz::Field::Month => Names::Months,
        cron_quartz::Field::DayOfWeek => Names::Days,
        _ => return None,
    };
    Some(NoName { names, word })
}

/// The same for an expression of this library.
pub fn own_word<'a>(fault: &cron_text::Fault<'a>) -> Option<NoName<'a>>
    ensures { result ≡ own_word fault.now }
{
    let cron_text::Fault::Refused(item) = fault else {
        return None;
    };
    let Refusal::UnknownName(word) = item.refusal else {
        return None;
    };
    let names = match item.definition.title {
        "Months" => Names::Months,
        "Days of Week" => Names::Days,
        _ => return None,
    };
    Some(NoName { names, word })
}
