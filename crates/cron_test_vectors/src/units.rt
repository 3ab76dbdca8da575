//! Questions about the set of a unit: of a schedule, or of items that are added one by one. A
//! question is a word, or a word and a number or two bounds.

ghost use Rattle.std.specs.Prelude.{IfSome};
ghost use Rattle.cron_units.specs.Bounds.{IsForward};

use crate::words::first_word;
use anyhow::{Context, Result, bail};
use cron::Schedule;
use cron::time_unit::Ordinal;
use cron_test_rows::Row;
use cron_units::specifier::{Base, Item, RefusedItem, add_item, item_error};
use cron_units::time_unit::{
    DaysOfMonth, DaysOfWeek, Hours, Months, Seconds, TimeUnitField, TimeUnitSpec, Years, empty,
    only, whole,
};
use cron_units::way::Way;
use std::fmt::Debug;
use std::ops::Bound;

/// Adds the `Debug` text of a value.
fn add_shown(row: &mut Row<'_>, value: &impl Debug) -> Result<()> {
    Ok(row.add(" ", &format_args!("{value:?}"))?)
}

/// Adds the members from both ends in turn, and then `None`.
fn ask_in_turn<T: TimeUnitSpec>(row: &mut Row<'_>, set: &T) -> Result<()> {
    let mut members = set.iter();
    for _ in 0..=set.count() / 2 {
        add_shown(row, &members.next())?;
        add_shown(row, &members.next_back())?;
    }
    Ok(())
}

/// Reads a bound of a range: `=5` includes the number, `~5` excludes it, and `-` is no bound.
fn bound(word: &str) -> Result<Bound<Ordinal>> {
    if let Some(number) = word.strip_prefix('=') {
        return Ok(Bound::Included(number.parse()?));
    }
    if let Some(number) = word.strip_prefix('~') {
        return Ok(Bound::Excluded(number.parse()?));
    }
    Ok(Bound::Unbounded)
}

type Bounds = (Bound<Ordinal>, Bound<Ordinal>);

/// Returns the bounds, or `None` if they step back.
fn forward(bounds: Bounds) -> Option<Bounds>
    ensures { IfSome result (λ b. IsForward b.0 b.1) }
{
    match bounds {
        (Bound::Unbounded, _) | (_, Bound::Unbounded) => Some(bounds),
        (Bound::Excluded(low), Bound::Excluded(high)) if low < high => Some(bounds),
        (Bound::Included(low), Bound::Included(high)) if low <= high => Some(bounds),
        (Bound::Included(low), Bound::Excluded(high)) if low <= high => Some(bounds),
        (Bound::Excluded(low), Bound::Included(high)) if low <= high => Some(bounds),
        _ => None,
    }
}

/// Adds the members between two bounds: ahead; back; and one each from the front, the back and the
/// front.
fn ask_range<T: TimeUnitSpec>(row: &mut Row<'_>, set: &T, words: &str) -> Result<()> {
    let (low, high) = first_word(words);
    let bounds = (bound(low)?, bound(high)?);
    let bounds = forward(bounds).context("the bounds step back")?;
    for member in set.range(bounds) {
        row.add(" ", &member)?;
    }
    row.add("", &";")?;
    for member in set.range(bounds).rev() {
        row.add(" ", &member)?;
    }
    row.add("", &";")?;
    let mut members = set.range(bounds);
    add_shown(row, &members.next())?;
    add_shown(row, &members.next_back())?;
    add_shown(row, &members.next())
}

/// Adds the answer to a question about a set. A question that isn't listed here adds all members.
fn ask_set<T: TimeUnitSpec>(row: &mut Row<'_>, set: &T, question: &str) -> Result<()> {
    match first_word(question) {
        ("count", _) => row.add(" ", &set.count())?,
        ("all", _) => row.add(" ", &set.is_all())?,
        ("includes", number) => row.add(" ", &set.includes(number.parse()?))?,
        ("turns", _) => ask_in_turn(row, set)?,
        ("range", bounds) => ask_range(row, set, bounds)?,
        _ => {
            for member in set.iter() {
                row.add(" ", &member)?;
            }
        }
    }
    Ok(())
}

/// Replays a row, which has the unit and the question.
pub(crate) fn ask_of_schedule(row: &mut Row<'_>, schedule: &Schedule) -> Result<()> {
    let (unit, question) = (row.cell(), row.cell());
    match unit {
        "seconds" => ask_set(row, schedule.seconds(), question),
        "minutes" => ask_set(row, schedule.minutes(), question),
        "hours" => ask_set(row, schedule.hours(), question),
        "days of month" if question == "last day" => {
            Ok(row.add("", &schedule.days_of_month().last_day())?)
        }
        "days of month" => ask_set(row, schedule.days_of_month(), question),
        "months" => ask_set(row, schedule.months(), question),
        "days of week" => ask_set(row, schedule.days_of_week(), question),
        "years" => ask_set(row, schedule.years(), question),
        _ => bail!("{unit:?} is no unit"),
    }
}

/// Reads an item: a name; or `*`, a number or a range, with or without a step.
fn item_of(text: &str) -> Result<Item<'_>> {
    if text.starts_with(|character| char::is_ascii_alphabetic(&character)) {
        return Ok(Item::Name(text));
    }
    let (base, step) = text.split_once('/').unwrap_or((text, ""));
    let base = match base.split_once('-') {
        Some((first, last)) => Base::NumberRange(first.parse()?, last.parse()?),
        None if base == "*" => Base::Every,
        None => Base::Single(base.parse()?),
    };
    if step.is_empty() {
        return Ok(Item::Plain(base));
    }
    Ok(Item::Stepped(base, step.parse()?))
}

/// The set of the items. For each refused item it adds the message, also as an error shows it.
fn set_of<T: TimeUnitField>(row: &mut Row<'_>, items: &str) -> Result<T> {
    let mut set = empty::<T>();
    for item in items.split(',') {
        if let Err(refusal) = add_item(&mut set, item_of(item)?) {
            let item = RefusedItem {
                definition: T::definition(),
                refusal,
            };
            row.add(" ", &item)?;
            row.add(" ", &item_error(row.alloc(), item))?;
        }
    }
    Ok(set)
}

/// Adds whether the set has only `number`, has no member, and has every number of the unit.
fn ask_same<T: TimeUnitField + PartialEq>(row: &mut Row<'_>, set: &T, number: &str) -> Result<()> {
    let ordinal: Ordinal = number.parse()?;
    if ordinal < T::inclusive_min() || T::inclusive_max() < ordinal {
        bail!("{ordinal} is no number of the unit");
    }
    let (one, none, all) = (only::<T>(ordinal), empty::<T>(), whole::<T>());
    add_shown(row, &(*set == one, *set == none, *set == all))
}

/// Adds the answer to a question about a unit, or about the set of `items`.
fn ask_unit<T: TimeUnitField + TimeUnitSpec + PartialEq>(
    row: &mut Row<'_>,
    items: &str,
    question: &str,
) -> Result<()> {
    let set = set_of::<T>(row, items)?;
    match first_word(question) {
        ("title", _) => Ok(row.add("", &T::name())?),
        ("mark", _) => Ok(row.add("", &T::takes_question_mark())?),
        ("named", name) => add_shown(row, &T::ordinal_from_name(name)),
        ("ahead", from) => add_shown(row, &set.nearest(Way::Ahead, from.parse()?)),
        ("back", from) => add_shown(row, &set.nearest(Way::Back, from.parse()?)),
        ("same", number) => ask_same(row, &set, number),
        _ => ask_set(row, &set, question),
    }
}

/// Replays a row, which has the unit, items and the question.
pub(crate) fn ask_of_items(row: &mut Row<'_>) -> Result<()> {
    let (unit, items, question) = (row.cell(), row.cell(), row.cell());
    match unit {
        "seconds" => ask_unit::<Seconds>(row, items, question),
        "hours" => ask_unit::<Hours>(row, items, question),
        "days of month" if question == "last day" => {
            let days = set_of::<DaysOfMonth>(row, items)?;
            Ok(row.add(" ", &days.last_day())?)
        }
        "days of month" => ask_unit::<DaysOfMonth>(row, items, question),
        "months" => ask_unit::<Months>(row, items, question),
        "days of week" => ask_unit::<DaysOfWeek>(row, items, question),
        "years" => ask_unit::<Years>(row, items, question),
        _ => bail!("{unit:?} is no unit"),
    }
}
