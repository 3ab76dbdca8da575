//! The numbers of a set, as a component of a line: a star, or ranges such as `09..17` with commas
//! between.

ghost use Rattle.std.specs.Prelude.{◌≡◌, ◌≤◌, ◌==◌, ◌+◌, ◌%◌, ◌++◌, ◌∷◌, [], ℕ, true, OnOk};
ghost use Rattle.std.specs.String.{string_bytes};
ghost use Rattle.cron_units.specs.Units.{contains};
ghost use Rattle.cron_oncalendar.specs.Inner.Pieces.{is_listable, AreWeekdays, IsComponent};
ghost use Rattle.cron_oncalendar.specs.Inner.Written.{word_text, weekday_text, range_text, Pushes, AreRangesText};

use cron_bits::words::Words;
use cron_units::time_unit::layout::{bits, from_bits};
use cron_units::time_unit::{DaysOfWeek, Ordinal, OrdinalIter, TimeUnitField, TimeUnitSpec};
use std::alloc::AllocError;

/// How the numbers of a component are written.
#[derive(Clone, Copy)]
pub(crate) enum Spelling {
    /// In decimal, with two digits or more.
    Digits,
    /// By the name of a day of the week, from 1 for Monday on.
    Names,
}

// The name of a day of the week, from 1 for Monday on.
fn name_of(weekday: Ordinal) -> &'static str
    ensures { result.now ≡ weekday_text weekday }
{
    match weekday {
        1 => "Mon",
        2 => "Tue",
        3 => "Wed",
        4 => "Thu",
        5 => "Fri",
        6 => "Sat",
        _ => "Sun",
    }
}

fn push_word(text: &mut String, spelling: Spelling, number: Ordinal) -> Result<(), AllocError>
    ensures { OnOk result
        (string_bytes text.new ≡ string_bytes text.old ++ word_text spelling number) }
{
    match spelling {
        Spelling::Names => text.push_str(name_of(number)),
        Spelling::Digits if number < 10 => write!(text, "0{number}"),
        Spelling::Digits => write!(text, "{number}"),
    }
}

fn push_range(
    text: &mut String,
    spelling: Spelling,
    first: Ordinal,
    last: Ordinal,
) -> Result<(), AllocError>
    ensures { OnOk result
        (string_bytes text.new ≡ string_bytes text.old ++ range_text spelling (first, last)) }
{
    push_word(text, spelling, first)?;
    if first == last {
        return Ok(());
    }
    text.push_str("..")?;
    push_word(text, spelling, last)
}

// Whether `ordinal` is `last` plus 1.
fn is_next(last: Ordinal, ordinal: Ordinal) -> bool
    ensures { result ≡ (last + 1 == ordinal) }
{
    u64::from(last) + 1 == u64::from(ordinal)
}

// Appends the ranges of `start` and of the `ordinals` after it, which ascend. Consecutive numbers
// are one range.
fn push_ranges(
    text: &mut String,
    spelling: Spelling,
    start: Ordinal,
    ordinals: OrdinalIter<'_>,
) -> Result<(), AllocError>
    ensures { OnOk result (Pushes (AreRangesText spelling (start ∷ ordinals.entry))
        (string_bytes text.old) (string_bytes text.new)) }
{
    let (mut first, mut last) = (start, start);
    for ordinal in ordinals {
        if !is_next(last, ordinal) {
            push_range(text, spelling, first, last)?;
            text.push_str(",")?;
            first = ordinal;
        }
        last = ordinal;
    }
    push_range(text, spelling, first, last)
}

/// Appends a component: a star for all numbers of the unit, else their ranges.
pub(crate) fn push_component<T: TimeUnitSpec>(text: &mut String, set: &T) -> Result<(), AllocError>
    requires unit { is_listable T.time_unit ≡ true }
    requires filled { T.ordinals set.now ≡ [] → ⊥ }
    ensures { OnOk result (Pushes (IsComponent T.time_unit (T.ordinals set.now))
        (string_bytes text.old) (string_bytes text.new)) }
{
    if set.is_all() {
        return write!(text, "*");
    }
    let mut ordinals = set.iter();
    match ordinals.next() {
        Some(start) => push_ranges(text, Spelling::Digits, start, ordinals),
        None => Ok(()),
    }
}

// The same days of the week, numbered from 1 for Monday to 7 for Sunday; in `days` Sunday is 1.
fn from_monday(days: &DaysOfWeek) -> DaysOfWeek
    ensures { (n : ℕ) → 1 ≤ n → n ≤ 7 → contains result n ≡ contains days.now (n % 7 + 1) }
{
    let word = bits(days);
    if word.contains(0) {
        from_bits((word >> 1).with(6))
    } else {
        from_bits(word >> 1)
    }
}

/// Appends the days of the week and a space, or nothing for all of them.
pub(crate) fn push_weekdays(text: &mut String, days: &DaysOfWeek) -> Result<(), AllocError>
    requires filled { days.now ≡ [] → ⊥ }
    ensures { OnOk result (Pushes (AreWeekdays days.now)
        (string_bytes text.old) (string_bytes text.new)) }
{
    if days.is_all() {
        return Ok(());
    }
    days.state_facts();
    let numbers = from_monday(days);
    let mut ordinals = numbers.iter();
    let Some(start) = ordinals.next() else {
        return Ok(());
    };
    push_ranges(text, Spelling::Names, start, ordinals)?;
    write!(text, " ")
}
