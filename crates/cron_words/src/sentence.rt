//! The sentence of a union: of several schedules that match together as one.

ghost use Rattle.std.specs.Prelude.{◌≡◌, ◌++◌, IfOk, OnOk};
ghost use Rattle.std.specs.String.{string_bytes};
ghost use Rattle.cron_words.specs.Schedules.{later_text, schedule_text, union_text};
ghost use Rattle.cron_words.specs.Shapes.{shape_from};
ghost use Rattle.cron_words.specs.Sentence.{sentence, shape_text, shaped_text, text_from};

use crate::days::{push_months, push_years};
use crate::lists::{Naming, push_name};
use crate::nth::push_dates;
use crate::shapes::{Shape, base, shape_from};
use crate::times::push_times;
use cron_units::fields::ScheduleFields;
use std::alloc::{AllocError, Global};

// Appends the months and the years.
#[tactic(auto, using(crate::proofs::PushLemmas::later_on))]
fn push_later(alloc: Global, text: &mut String, fields: &ScheduleFields) -> Result<(), AllocError>
    ensures { OnOk result
        (string_bytes text.new ≡ string_bytes text.old ++ later_text fields.now) }
{
    push_months(alloc, text, &fields.months)?;
    push_years(alloc, text, &fields.years)
}

// Appends the words of the schedule `fields`. They begin with a capital letter if `capital` is
// true, else with a small one.
#[tactic(auto, using(crate::proofs::PushLemmas::schedule_on))]
fn push_schedule(
    alloc: Global,
    text: &mut String,
    capital: bool,
    fields: &ScheduleFields,
) -> Result<(), AllocError>
    ensures { OnOk result
        (string_bytes text.new ≡ string_bytes text.old ++ schedule_text capital fields.now) }
{
    push_times(alloc, text, capital, fields)?;
    push_dates(alloc, text, fields)?;
    push_later(alloc, text, fields)
}

// Appends the words of one schedule after another, or `Never` if there are none.
fn push_union(
    alloc: Global,
    text: &mut String,
    schedules: &[ScheduleFields],
) -> Result<(), AllocError>
    ensures { OnOk result
        (string_bytes text.new ≡ string_bytes text.old ++ union_text schedules.now) }
{
    let Some((first, others)) = schedules.split_first() else {
        return text.push_str("Never");
    };
    push_schedule(alloc, text, true, first)?;
    for fields in others {
        text.push_str("; or ")?;
        push_schedule(alloc, text, false, fields)?;
    }
    Ok(())
}

fn push_shape(text: &mut String, shape: Shape) -> Result<(), AllocError>
    ensures { OnOk result (string_bytes text.new ≡ string_bytes text.old ++ shape_text shape) }
{
    match shape {
        Shape::LastWeekday(weekday) => {
            text.push_str(", on the last ")?;
            push_name(text, Naming::Weekdays, weekday)?;
            text.push_str(" of the month")
        }
        Shape::NearestWorkday(day) => {
            text.push_str(", on the workday nearest to the ")?;
            push_name(text, Naming::Ordinals, day)
        }
        Shape::LastWorkday => text.push_str(", on the last workday of the month"),
    }
}

// Appends the words of schedules of a form of days. `fields` is the schedule of the other fields.
#[tactic(auto, using(crate::proofs::PushLemmas::shaped_on))]
fn push_shaped(
    alloc: Global,
    text: &mut String,
    shape: Shape,
    fields: &ScheduleFields,
) -> Result<(), AllocError>
    ensures { OnOk result
        (string_bytes text.new ≡ string_bytes text.old ++ shaped_text shape fields.now) }
{
    push_times(alloc, text, true, fields)?;
    push_shape(text, shape)?;
    push_later(alloc, text, fields)
}

// Appends the sentence of schedules of which the first is `first`.
fn push_sentence(
    alloc: Global,
    text: &mut String,
    first: &ScheduleFields,
    schedules: &[ScheduleFields],
) -> Result<(), AllocError>
    ensures { OnOk result (string_bytes text.new ≡ string_bytes text.old
        ++ text_from (shape_from first.now schedules.now) first.now schedules.now) }
{
    match shape_from(first, schedules) {
        Some(shape) => push_shaped(alloc, text, shape, &base(first, schedules)),
        None => push_union(alloc, text, schedules),
    }
}

/// One sentence for a union. Schedules that mean one of Quartz's forms of days together are told as
/// that form, and others one after another, in their order. It is `Never` if there are none.
pub fn sentence(alloc: Global, schedules: &[ScheduleFields]) -> Result<String, AllocError>
    ensures { IfOk result (λ text. string_bytes text ≡ sentence schedules.now) }
{
    let mut text = String::new(alloc);
    match schedules.first() {
        Some(first) => push_sentence(alloc, &mut text, first, schedules)?,
        None => text.push_str("Never")?,
    }
    Ok(text)
}
