//! Five fields, and the schedules that they mean.

ghost use Rattle.std.specs.Prelude.{◌≡◌, ◌<◌, ◌≤◌, ◌^◌, ◌&&◌, ◌||◌, ◌==◌, ℕ, IfSome, MatchOption, Err};
ghost use Rattle.cron_bits.specs.Words.{has_bit};
ghost use Rattle.cron_crontab.specs.Crontab.{Five, field_of, five_of, items_of, on_both, schedules_of, words};
ghost use Rattle.cron_crontab.specs.Views.{fault_view};
ghost use Rattle.cron_crontab.specs.Inner.Reading.{AreFiveRead, AreKept, AreRead, IsFieldRead};

use crate::faults::{Fault, RefusedItem};
use crate::field::Field;
use crate::items::{Base, begins_with_star, numbers_of, read_item};
use crate::schedules::Schedules;
use crate::words::{cut_at, next_word};
use cron_bits::words::Words;
use cron_units::fields::ScheduleFields;
use cron_units::time_unit::layout::{days_from_bits, from_bits};
use cron_units::time_unit::{only, whole};

/// The numbers of a field as bits, where bit 0 is the field's least number, and whether the field
/// begins with a star.
#[derive(Clone, Copy)]
pub(crate) struct FieldNumbers {
    numbers: u64,
    star: bool,
}

/// The numbers of five fields.
#[derive(Clone, Copy)]
pub(crate) struct FiveNumbers {
    minute: FieldNumbers,
    hour: FieldNumbers,
    day_of_month: FieldNumbers,
    month: FieldNumbers,
    day_of_week: FieldNumbers,
}

/// All numbers of `field` as bits if `word` is a lone star, as most fields are. Else `None`.
#[inline(always)]
fn star_numbers(field: Field, word: &str) -> Option<u64>
    ensures { IfSome result (λ bits. AreRead field word.now bits × (bits < 2 ^ 64)) }
{
    if word.len() != 1 || !begins_with_star(word) {
        return None;
    }
    Some(numbers_of(field, Base::Range(field.least(), field.greatest()), 1))
}

/// Reads the items of a field, with commas between them, and returns their numbers as bits. If an
/// item is refused, writes the fault to `fault` and returns `None`. As part of the result, a fault
/// would be copied through memory after each field, even after one without a fault.
#[inline(never)]
fn read_items<'a>(field: Field, word: &'a str, fault: &mut Fault<'a>) -> Option<u64>
    ensures items { MatchOption result
        (items_of field word.now ≡ Err (fault_view fault.new)) (AreRead field word.now) }
    ensures fit { IfSome result (λ bits. bits < 2 ^ 64) }
{
    let mut numbers = u64::none();
    let mut rest = word;
    loop {
        let (item, behind) = cut_at(rest, b',');
        match read_item(field, item) {
            Ok(more) => numbers = numbers.join(more),
            Err(reason) => {
                *fault = Fault::Refused(RefusedItem {
                    field,
                    item,
                    reason,
                });
                return None;
            }
        }
        match behind {
            Some(others) => rest = others,
            None => return Some(numbers),
        }
    }
}

#[inline(always)]
fn read_numbers<'a>(field: Field, word: &'a str, fault: &mut Fault<'a>) -> Option<u64>
    ensures items { MatchOption result
        (items_of field word.now ≡ Err (fault_view fault.new)) (AreRead field word.now) }
    ensures fit { IfSome result (λ bits. bits < 2 ^ 64) }
{
    match star_numbers(field, word) {
        Some(numbers) => Some(numbers),
        None => read_items(field, word, fault),
    }
}

/// Reads the first word of `text` as `field`, and returns its numbers and the text after it. `None`
/// if there is no word or it is refused; `fault` then says why.
#[inline(always)]
fn next_field<'a>(
    field: Field,
    text: &'a str,
    fault: &mut Fault<'a>,
) -> Option<(FieldNumbers, &'a str)>
    ensures field { MatchOption result
        (field_of field (words text.now) ≡ Err (fault_view fault.new))
        (λ r. IsFieldRead field (words text.now) r.0 (words r.1.now)) }
    ensures fit { IfSome result (λ r. r.0.numbers < 2 ^ 64) }
{
    let Some((word, rest)) = next_word(text) else {
        *fault = Fault::NoField(field);
        return None;
    };
    let numbers = read_numbers(field, word, fault)?;
    let star = begins_with_star(word);
    Some((FieldNumbers { numbers, star }, rest))
}

/// Reads a text of five fields and nothing after them. `None` if it is refused; `fault` then says
/// why.
pub(crate) fn read_five<'a>(text: &'a str, fault: &mut Fault<'a>) -> Option<FiveNumbers>
    ensures five { MatchOption result
        (five_of (words text.now) ≡ Err (fault_view fault.new)) (AreFiveRead (words text.now)) }
    ensures fit { IfSome result (λ five. five.day_of_week.numbers < 2 ^ 64) }
{
    let (minute, rest) = next_field(Field::Minute, text, fault)?;
    let (hour, rest) = next_field(Field::Hour, rest, fault)?;
    let (day_of_month, rest) = next_field(Field::DayOfMonth, rest, fault)?;
    let (month, rest) = next_field(Field::Month, rest, fault)?;
    let (day_of_week, rest) = next_field(Field::DayOfWeek, rest, fault)?;
    if let Some((word, _)) = next_word(rest) {
        *fault = Fault::SixthField(word);
        return None;
    }
    Some(FiveNumbers {
        minute,
        hour,
        day_of_month,
        month,
        day_of_week,
    })
}

/// Returns the days of the week `days` with bit 0 set if bit 7 is set, since both bits are Sunday.
#[inline(always)]
fn with_sunday(days: u64) -> u64
    requires { days < 2 ^ 64 }
    ensures { (k : ℕ) → has_bit result k ≡ (has_bit days k || (k == 0 && has_bit days 7)) }
{
    if days.contains(7) { days.with(0) } else { days }
}

impl FiveNumbers {
    // The schedule whose days must be in both sets: the days of the month and the days of the week.
    fn on_both(&self) -> ScheduleFields
        requires { self.now.day_of_week.numbers < 2 ^ 64 }
        ensures { (five : Five) → AreKept five self.now → result ≡ on_both five }
    {
        ScheduleFields {
            seconds: only(0),
            minutes: from_bits(self.minute.numbers),
            hours: from_bits(self.hour.numbers),
            days_of_month: days_from_bits(self.day_of_month.numbers, false),
            months: from_bits(self.month.numbers),
            days_of_week: from_bits(with_sunday(self.day_of_week.numbers)),
            years: whole(),
        }
    }

    /// The schedules that the five fields mean: one if a field of days begins with a star, else
    /// two, one for each field of days.
    pub(crate) fn schedules(&self) -> Schedules
        requires { self.now.day_of_week.numbers < 2 ^ 64 }
        ensures { (five : Five) → AreKept five self.now → result ≡ schedules_of five }
    {
        let both = self.on_both();
        if self.day_of_month.star || self.day_of_week.star {
            return Schedules::one(both);
        }
        let by_month = ScheduleFields {
            days_of_week: whole(),
            ..both
        };
        let by_week = ScheduleFields {
            days_of_month: whole(),
            ..both
        };
        Schedules::two(by_month, by_week)
    }
}
