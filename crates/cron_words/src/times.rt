//! The times of day of a schedule, in words.

ghost use Rattle.std.specs.Prelude.{◌≡◌, ◌==◌, ◌&&◌, ◌||◌, ◌++◌, ◌∷◌, [], false, true, length, nat_lt, OnOk, MatchOption};
ghost use Rattle.std.specs.String.{string_bytes};
ghost use Rattle.cron_words.specs.Progressions.{first, last, progression, step};
ghost use Rattle.cron_words.specs.Schedules.{are_few, at_text, clocked_text, counted_text, every_text, first_unit, goes_on, hours_text, is_hourly, is_on_the_minute, is_one, is_span, is_stretch, minutes_text, next_unit, nth_text, span_text, steps_text, stretch_text, times_text, units_text};

use crate::clocks::push_clock;
use crate::items::{items_of, ones_of, only};
use crate::lists::{Naming, push_list, push_name};
use crate::progressions::{Ends, Progression, ends_of, goes_round, progression_of, round_step};
use cron_units::fields::ScheduleFields;
use cron_units::time_unit::{Hours, Ordinal, TimeUnitField, TimeUnitSpec};
use std::alloc::{AllocError, Global};

fn push_at(text: &mut String, capital: bool) -> Result<(), AllocError>
    ensures { OnOk result (string_bytes text.new ≡ string_bytes text.old ++ at_text capital) }
{
    text.push_str(if capital { "At " } else { "at " })
}

fn push_every(text: &mut String, capital: bool) -> Result<(), AllocError>
    ensures { OnOk result (string_bytes text.new ≡ string_bytes text.old ++ every_text capital) }
{
    text.push_str(if capital { "Every " } else { "every " })
}

fn push_counted<T: TimeUnitSpec>(
    alloc: Global,
    text: &mut String,
    noun: &str,
    set: &T,
) -> Result<(), AllocError>
    ensures { OnOk result (string_bytes text.new
        ≡ string_bytes text.old ++ counted_text noun.now (T.ordinals set.now)) }
{
    let count = set.count();
    if count == 0 {
        return write!(text, "no {noun}");
    }
    text.push_str(noun)?;
    text.push_str(if count == 1 { " " } else { "s " })?;
    let items = items_of(alloc, set)?;
    push_list(text, Naming::Numbers, &items)
}

// Appends what stands after `every`: `noun` alone if `step` is 1, else as `5 minutes`.
fn push_steps(text: &mut String, noun: &str, step: Ordinal) -> Result<(), AllocError>
    ensures { OnOk result
        (string_bytes text.new ≡ string_bytes text.old ++ steps_text noun.now step) }
{
    if step == 1 {
        return text.push_str(noun);
    }
    write!(text, "{step} {noun}s")
}

// Appends what stands after `of every`: `noun` alone if `step` is 1, else as `5th minute`.
fn push_nth(text: &mut String, noun: &str, step: Ordinal) -> Result<(), AllocError>
    ensures { OnOk result
        (string_bytes text.new ≡ string_bytes text.old ++ nth_text noun.now step) }
{
    if step != 1 {
        push_name(text, Naming::Ordinals, step)?;
        text.push_str(" ")?;
    }
    text.push_str(noun)
}

// Appends the first unit of a sentence: `every` and `noun` if `set` goes round, perhaps by a step,
// else `at` and the numbers.
fn push_first_unit<T: TimeUnitField>(
    alloc: Global,
    text: &mut String,
    capital: bool,
    noun: &str,
    set: &T,
) -> Result<(), AllocError>
    ensures { OnOk result (string_bytes text.new
        ≡ string_bytes text.old ++ first_unit capital noun.now T.unit (T.members set.now)) }
{
    let Some(step) = round_step(set) else {
        push_at(text, capital)?;
        return push_counted(alloc, text, noun, set);
    };
    push_every(text, capital)?;
    push_steps(text, noun, step)
}

// Appends a unit after a smaller unit. `round` says whether the smaller unit goes round; then
// nothing is appended if `set` has all of its own numbers.
fn push_next_unit<T: TimeUnitField>(
    alloc: Global,
    text: &mut String,
    round: bool,
    noun: &str,
    set: &T,
) -> Result<(), AllocError>
    ensures { OnOk result (string_bytes text.new
        ≡ string_bytes text.old ++ next_unit round noun.now T.unit (T.members set.now)) }
{
    let Some(step) = round_step(set) else {
        text.push_str(" of ")?;
        return push_counted(alloc, text, noun, set);
    };
    if round && step == 1 {
        return Ok(());
    }
    text.push_str(" of every ")?;
    push_nth(text, noun, step)
}

// Returns true if second 0 is the only second.
fn is_on_the_minute(fields: &ScheduleFields) -> bool
    ensures { result ≡ is_on_the_minute fields.now }
{
    only(&fields.seconds) == Some(0)
}

fn push_minutes(
    alloc: Global,
    text: &mut String,
    capital: bool,
    fields: &ScheduleFields,
) -> Result<(), AllocError>
    ensures { OnOk result
        (string_bytes text.new ≡ string_bytes text.old ++ minutes_text capital fields.now) }
{
    if is_on_the_minute(fields) {
        return push_first_unit(alloc, text, capital, "minute", &fields.minutes);
    }
    push_first_unit(alloc, text, capital, "second", &fields.seconds)?;
    let round = goes_round(&fields.seconds);
    push_next_unit(alloc, text, round, "minute", &fields.minutes)
}

// Minutes that go round, from the first minute of a first hour to the last minute of a last hour.
#[derive(Clone, Copy)]
struct Stretch {
    hours: Ends,
    minute: Ordinal,
}

// The stretch of a schedule whose minutes go round in one hour, or in hours that follow one another,
// but not in all.
#[tactic(auto, using(crate::proofs::ProgressionLemmas::no_round))]
fn stretch_of(fields: &ScheduleFields) -> Option<Stretch>
    ensures { MatchOption result
        (is_stretch fields.now ≡ false)
        (λ s. (is_stretch fields.now ≡ true)
        × (s.hours.first ≡ first fields.now.hours)
        × (s.hours.last ≡ last fields.now.hours)
        × (s.minute ≡ last fields.now.minutes)) }
{
    if !is_on_the_minute(fields) || !goes_round(&fields.minutes) {
        return None;
    }
    let minutes = progression_of(&fields.minutes)?;
    let hours = ends_of(&fields.hours)?;
    if fields.hours.count() >= 24 {
        return None;
    }
    Some(Stretch {
        hours,
        minute: minutes.last,
    })
}

fn push_stretch(text: &mut String, stretch: Stretch) -> Result<(), AllocError>
    ensures { OnOk result (string_bytes text.new
        ≡ string_bytes text.old ++ stretch_text stretch.hours.first stretch.hours.last stretch.minute) }
{
    text.push_str(" from ")?;
    push_clock(text, stretch.hours.first, 0, 0)?;
    text.push_str(" to ")?;
    push_clock(text, stretch.hours.last, stretch.minute, 0)
}

// Returns true if the seconds or the minutes go round.
fn goes_on(fields: &ScheduleFields) -> bool
    ensures { result ≡ goes_on fields.now }
{
    goes_round(&fields.seconds) || goes_round(&fields.minutes)
}

#[tactic(auto, using(crate::proofs::PushLemmas::stretch_on, crate::proofs::PushLemmas::hours_on))]
fn push_hours(alloc: Global, text: &mut String, fields: &ScheduleFields) -> Result<(), AllocError>
    ensures { OnOk result
        (string_bytes text.new ≡ string_bytes text.old ++ hours_text fields.now) }
{
    if let Some(stretch) = stretch_of(fields) {
        return push_stretch(text, stretch);
    }
    push_next_unit(alloc, text, goes_on(fields), "hour", &fields.hours)
}

fn push_units(
    alloc: Global,
    text: &mut String,
    capital: bool,
    fields: &ScheduleFields,
) -> Result<(), AllocError>
    ensures { OnOk result
        (string_bytes text.new ≡ string_bytes text.old ++ units_text capital fields.now) }
{
    push_minutes(alloc, text, capital, fields)?;
    push_hours(alloc, text, fields)
}

// The step of `hours` that go round, if the minute and the second are 0.
fn hourly_step(minute: Ordinal, second: Ordinal, hours: &Hours) -> Option<Ordinal>
    ensures { MatchOption result
        (is_hourly minute second hours.now ≡ false)
        (λ k. (is_hourly minute second hours.now ≡ true) × (k ≡ step hours.now)) }
{
    if minute != 0 || second != 0 {
        return None;
    }
    round_step(hours)
}

// Returns true if `hours`, which are a progression with this step, are told as those from a first to
// a last.
fn is_long(step: Ordinal, hours: &Hours) -> bool
    ensures { result ≡ (nat_lt (length hours.now) 24
        && (nat_lt 4 (length hours.now) || (step == 1 && nat_lt 2 (length hours.now)))) }
{
    let count = hours.count();
    count < 24 && (count > 4 || step == 1 && count > 2)
}

fn span_of(hours: &Hours) -> Option<Progression>
    ensures { MatchOption result
        (is_span hours.now ≡ false)
        (λ p. (is_span hours.now ≡ true) × (p ≡ progression hours.now)) }
{
    let numbers = progression_of(hours)?;
    if is_long(numbers.step, hours) {
        Some(numbers)
    } else {
        None
    }
}

// Appends the hours from a first to a last, each at this minute and second.
fn push_span(
    text: &mut String,
    capital: bool,
    minute: Ordinal,
    second: Ordinal,
    hours: Progression,
) -> Result<(), AllocError>
    ensures { OnOk result (string_bytes text.new
        ≡ string_bytes text.old ++ span_text capital minute second hours) }
{
    push_every(text, capital)?;
    push_steps(text, "hour", hours.step)?;
    text.push_str(" from ")?;
    push_clock(text, hours.first, minute, second)?;
    text.push_str(" to ")?;
    push_clock(text, hours.last, minute, second)
}

fn are_few(hours: &Hours) -> bool
    ensures { result ≡ are_few hours.now }
{
    let count = hours.count();
    count > 0 && count < 7
}

// Appends the times of day of a schedule whose one minute is `minute` and one second is `second`.
fn push_clocked(
    alloc: Global,
    text: &mut String,
    capital: bool,
    minute: Ordinal,
    second: Ordinal,
    fields: &ScheduleFields,
) -> Result<(), AllocError>
    ensures { OnOk result (string_bytes text.new
        ≡ string_bytes text.old ++ clocked_text capital minute second fields.now) }
{
    if let Some(step) = hourly_step(minute, second, &fields.hours) {
        push_every(text, capital)?;
        return push_steps(text, "hour", step);
    }
    if let Some(hours) = span_of(&fields.hours) {
        return push_span(text, capital, minute, second, hours);
    }
    if are_few(&fields.hours) {
        push_at(text, capital)?;
        let items = ones_of(alloc, &fields.hours)?;
        return push_list(text, Naming::Clocks(minute, second), &items);
    }
    push_units(alloc, text, capital, fields)
}

/// Appends times of day if there is one minute and one second, else the seconds, minutes and hours.
pub(crate) fn push_times(
    alloc: Global,
    text: &mut String,
    capital: bool,
    fields: &ScheduleFields,
) -> Result<(), AllocError>
    ensures { OnOk result
        (string_bytes text.new ≡ string_bytes text.old ++ times_text capital fields.now) }
{
    match (only(&fields.minutes), only(&fields.seconds)) {
        (Some(minute), Some(second)) => {
            push_clocked(alloc, text, capital, minute, second, fields)
        }
        _ => push_units(alloc, text, capital, fields),
    }
}
