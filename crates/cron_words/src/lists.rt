//! Lists of numbers in words.

ghost use Rattle.std.specs.Prelude.{◌≡◌, ◌<◌, ◌++◌, OnOk, length};
ghost use Rattle.std.specs.String.{string_bytes};
ghost use Rattle.cron_words.specs.Lists.{item_text, list_text, month_text, name_text, ordinal_end, separator_text, weekday_text};
ghost use Rattle.cron_words.specs.declared.items.Item.TheVariants.{Steps};

use crate::clocks::push_clock;
use crate::items::Item;
use crate::progressions::Progression;
use cron_units::time_unit::Ordinal;
use std::alloc::AllocError;

/// How a number is written.
#[derive(Clone, Copy)]
pub(crate) enum Naming {
    /// By its digits.
    Numbers,
    /// As an ordinal number, such as `1st`.
    Ordinals,
    /// By the name of a day of the week, from 1 for Sunday.
    Weekdays,
    /// By the name of a month.
    Months,
    /// As an hour by the clock, with this minute and second.
    Clocks(Ordinal, Ordinal),
}

fn weekday(number: Ordinal) -> &'static str
    ensures { result.now ≡ weekday_text number }
{
    match number {
        1 => "Sunday",
        2 => "Monday",
        3 => "Tuesday",
        4 => "Wednesday",
        5 => "Thursday",
        6 => "Friday",
        _ => "Saturday",
    }
}

fn month(number: Ordinal) -> &'static str
    ensures { result.now ≡ month_text number }
{
    match number {
        1 => "January",
        2 => "February",
        3 => "March",
        4 => "April",
        5 => "May",
        6 => "June",
        7 => "July",
        8 => "August",
        9 => "September",
        10 => "October",
        11 => "November",
        _ => "December",
    }
}

// The letters after the digits of an ordinal number, as in `1st` or `4th`.
fn ordinal_end(number: Ordinal) -> &'static str
    ensures { result.now ≡ ordinal_end number }
{
    if number > 10 && number < 20 {
        return "th";
    }
    match number % 10 {
        1 => "st",
        2 => "nd",
        3 => "rd",
        _ => "th",
    }
}

/// Appends a number as `naming` writes it.
pub(crate) fn push_name(
    text: &mut String,
    naming: Naming,
    number: Ordinal,
) -> Result<(), AllocError>
    ensures { OnOk result
        (string_bytes text.new ≡ string_bytes text.old ++ name_text naming number) }
{
    match naming {
        Naming::Numbers => write!(text, "{number}"),
        Naming::Ordinals => write!(text, "{number}{}", ordinal_end(number)),
        Naming::Weekdays => text.push_str(weekday(number)),
        Naming::Months => text.push_str(month(number)),
        Naming::Clocks(minute, second) => push_clock(text, number, minute, second),
    }
}

// Appends a progression, as `0 to 56 by 7`.
fn push_steps(text: &mut String, naming: Naming, numbers: Progression) -> Result<(), AllocError>
    ensures { OnOk result
        (string_bytes text.new ≡ string_bytes text.old ++ item_text naming (Steps numbers)) }
{
    push_name(text, naming, numbers.first)?;
    text.push_str(" to ")?;
    push_name(text, naming, numbers.last)?;
    write!(text, " by {}", numbers.step)
}

fn push_item(text: &mut String, naming: Naming, item: Item) -> Result<(), AllocError>
    ensures { OnOk result
        (string_bytes text.new ≡ string_bytes text.old ++ item_text naming item) }
{
    match item {
        Item::One(number) => push_name(text, naming, number),
        Item::Range(first, last) => {
            push_name(text, naming, first)?;
            text.push_str(" to ")?;
            push_name(text, naming, last)
        }
        Item::Steps(numbers) => push_steps(text, naming, numbers),
    }
}

// The text before the item at the index `place` of `len` items.
fn separator(place: usize, len: usize) -> &'static str
    requires { place < len }
    ensures { result.now ≡ separator_text place len }
{
    match place {
        0 => "",
        _ if place + 1 < len => ", ",
        _ => " and ",
    }
}

/// Appends `items` with commas between them, and `and` before the last.
pub(crate) fn push_list(text: &mut String, naming: Naming, items: &[Item]) -> Result<(), AllocError>
    ensures { OnOk result
        (string_bytes text.new ≡ string_bytes text.old ++ list_text naming items.now) }
{
    for (place, item) in items.iter().enumerate() {
        text.push_str(separator(place, items.len()))?;
        push_item(text, naming, *item)?;
    }
    Ok(())
}
