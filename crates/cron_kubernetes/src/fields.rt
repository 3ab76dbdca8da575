//! Five fields, and the schedules that they mean.

ghost use Rattle.std.specs.Prelude.{◌≡◌, ◌||◌, MatchResult, Ok, Err};
ghost use Rattle.cron_crontab.specs.Crontab.{Five, words};
ghost use Rattle.cron_kubernetes.specs.Kubernetes.{field_of, five_of, items_of, on_both, schedules_of};
ghost use Rattle.cron_kubernetes.specs.Views.{fault_view};
ghost use Rattle.cron_kubernetes.specs.Inner.Reading.{AreFiveRead, AreKept, AreRead, IsAdded, IsFieldRead, IsItemFault};

use crate::faults::{Fault, RefusedItem};
use crate::items::{Numbers, read_item};
use crate::schedules::Schedules;
use cron_bits::words::Words;
use cron_crontab::{Field, cut_at, next_word};
use cron_units::fields::ScheduleFields;
use cron_units::time_unit::layout::{days_from_bits, from_bits};
use cron_units::time_unit::{only, whole};

/// The numbers of five fields.
#[derive(Clone, Copy)]
pub(crate) struct FiveNumbers {
    minute: Numbers,
    hour: Numbers,
    day_of_month: Numbers,
    month: Numbers,
    day_of_week: Numbers,
}

fn either(one: bool, other: bool) -> bool
    ensures { result ≡ (one || other) }
{
    one || other
}

// Reads an item of a field, unless it is empty, and adds its numbers to those before it.
fn add_item<'a>(field: Field, item: &'a str, before: Numbers) -> Result<Numbers, Fault<'a>>
    ensures { MatchResult result
        (IsAdded field item.now before) (λ fault. IsItemFault field item.now (fault_view fault)) }
{
    if item.is_empty() {
        return Ok(before);
    }
    match read_item(field, item) {
        Ok(more) => {
            let bits = before.bits.join(more.bits);
            let star = either(before.star, more.star);
            Ok(Numbers { bits, star })
        }
        Err(reason) => Err(Fault::Refused(RefusedItem {
            field,
            item,
            reason,
        })),
    }
}

// Reads the items of a field, with commas between them. Empty ones are left out.
fn read_items<'a>(field: Field, word: &'a str) -> Result<Numbers, Fault<'a>>
    ensures { MatchResult result
        (AreRead field word.now) (λ fault. items_of field word.now ≡ Err (fault_view fault)) }
{
    let mut numbers = Numbers {
        bits: 0,
        star: false,
    };
    let mut rest = word;
    loop {
        let (item, behind) = cut_at(rest, b',');
        match add_item(field, item, numbers) {
            Ok(more) => numbers = more,
            Err(fault) => return Err(fault),
        }
        match behind {
            Some(others) => rest = others,
            None => return Ok(numbers),
        }
    }
}

// Reads the first word of `text` as `field`, and returns its numbers and the text after it.
fn next_field<'a>(field: Field, text: &'a str) -> Result<(Numbers, &'a str), Fault<'a>>
    ensures { MatchResult result
        (λ r. IsFieldRead field (words text.now) r.0 (words r.1.now))
        (λ fault. field_of field (words text.now) ≡ Err (fault_view fault)) }
{
    let Some((word, rest)) = next_word(text) else {
        return Err(Fault::NoField(field));
    };
    let numbers = read_items(field, word)?;
    Ok((numbers, rest))
}

/// Reads a text of five fields and nothing after them.
pub(crate) fn read_five(text: &str) -> Result<FiveNumbers, Fault<'_>>
    ensures { MatchResult result
        (AreFiveRead (words text.now))
        (λ fault. five_of (words text.now) ≡ Err (fault_view fault)) }
{
    let (minute, rest) = next_field(Field::Minute, text)?;
    let (hour, rest) = next_field(Field::Hour, rest)?;
    let (day_of_month, rest) = next_field(Field::DayOfMonth, rest)?;
    let (month, rest) = next_field(Field::Month, rest)?;
    let (day_of_week, rest) = next_field(Field::DayOfWeek, rest)?;
    if let Some((word, _)) = next_word(rest) {
        return Err(Fault::SixthField(word));
    }
    Ok(FiveNumbers {
        minute,
        hour,
        day_of_month,
        month,
        day_of_week,
    })
}

impl FiveNumbers {
    // The schedule whose days must be in both sets: the days of the month and the days of the week.
    fn on_both(&self) -> ScheduleFields
        ensures { (five : Five) → AreKept five self.now → result ≡ on_both five }
    {
        ScheduleFields {
            seconds: only(0),
            minutes: from_bits(self.minute.bits),
            hours: from_bits(self.hour.bits),
            days_of_month: days_from_bits(self.day_of_month.bits, false),
            months: from_bits(self.month.bits),
            days_of_week: from_bits(self.day_of_week.bits),
            years: whole(),
        }
    }

    /// The schedules that the five fields mean: one if a field of days has a star, else two, one
    /// for each field of days.
    pub(crate) fn schedules(&self) -> Schedules
        ensures { (five : Five) → AreKept five self.now → result ≡ schedules_of five }
    {
        let both = self.on_both();
        if self.day_of_month.star || self.day_of_week.star {
            return Schedules::one(both);
        }
        let by_month = ScheduleFields {
            days_of_week: whole(),
            ..both
        };
        let by_week = ScheduleFields {
            days_of_month: whole(),
            ..both
        };
        Schedules::two(by_month, by_week)
    }
}
