//! Items of a field: stars, numbers and ranges, and their steps.

ghost use Rattle.std.specs.Prelude.{◌≡◌, ◌<◌, ◌≤◌, IfOk, MatchResult, Ok, Err};
ghost use Rattle.cron_crontab.specs.Items.{pieces};
ghost use Rattle.cron_quartz.specs.Items.{base_of, between, by_steps, is_named, item_of, plain, range_of, stepped_base, begins_anew};
ghost use Rattle.cron_quartz.specs.Views.{base_view, end_view, item_view, reason_view};
ghost use Rattle.cron_units.specs.Units.{TimeUnit};
ghost use Rattle.cron_quartz.specs.Inner.Reading.{IsWithin, IsBaseWithin, IsItemWithin};

use crate::faults::Reason;
use crate::numbers::{End, read_end, read_step};
use cron_crontab::cut_at;
use cron_units::time_unit::TimeUnitField;

/// The least year. The numbers of all other fields are less.
const FIRST_YEAR: u32 = 1970;

/// The part of an item before its step.
#[derive(Clone, Copy)]
pub(crate) enum Base {
    All,
    One(End),
    Range(End, End),
}

/// The numbers from `first` by steps of `every` to `last`. If `last` is less than `first`, they go
/// past the end of the field and on from its least number.
#[derive(Clone, Copy)]
pub(crate) struct Item {
    pub first: u32,
    pub last: u32,
    pub every: u32,
}

// The range from `first` to `last`. Refuses a range of a name and a number, and years in descending
// order.
fn range_of<'a, T: TimeUnitField>(first: End, last: End) -> Result<Base, Reason<'a>>
    requires first { IsWithin T.unit first.number }
    requires last { IsWithin T.unit last.number }
    ensures base { MatchResult result
        (λ b. range_of T.unit (end_view first) (end_view last) ≡ Ok (base_view b))
        (λ r. range_of T.unit (end_view first) (end_view last) ≡ Err (reason_view r)) }
    ensures within { IfOk result (IsBaseWithin T.unit) }
{
    if first.named != last.named {
        return Err(Reason::Mixed);
    }
    if T::inclusive_max() >= FIRST_YEAR && last.number < first.number {
        return Err(Reason::Backward);
    }
    Ok(Base::Range(first, last))
}

// Reads one number, or two with a dash between them.
fn read_range<'a, T: TimeUnitField>(text: &'a str) -> Result<Base, Reason<'a>>
    ensures base { MatchResult result
        (λ b. between T.unit (pieces 45 text.now) ≡ Ok (base_view b))
        (λ r. between T.unit (pieces 45 text.now) ≡ Err (reason_view r)) }
    ensures within { IfOk result (IsBaseWithin T.unit) }
{
    let (front, behind) = cut_at(text, b'-');
    let first = read_end::<T>(front)?;
    let Some(rest) = behind else {
        return Ok(Base::One(first));
    };
    let (back, more) = cut_at(rest, b'-');
    let last = read_end::<T>(back)?;
    let range = range_of::<T>(first, last)?;
    match more {
        None => Ok(range),
        Some(_) => Err(Reason::Ignored(back)),
    }
}

// Reads the part of an item before its step: a star, a number, a name or a range.
fn read_base<'a, T: TimeUnitField>(text: &'a str) -> Result<Base, Reason<'a>>
    ensures base { MatchResult result
        (λ b. base_of T.unit text.now ≡ Ok (base_view b))
        (λ r. base_of T.unit text.now ≡ Err (reason_view r)) }
    ensures within { IfOk result (IsBaseWithin T.unit) }
{
    if text == "*" {
        Ok(Base::All)
    } else {
        read_range::<T>(text)
    }
}

// Reads the part of an item before its slash. An empty part is a star.
fn read_stepped_base<'a, T: TimeUnitField>(text: &'a str) -> Result<Base, Reason<'a>>
    ensures base { MatchResult result
        (λ b. stepped_base T.unit text.now ≡ Ok (base_view b))
        (λ r. stepped_base T.unit text.now ≡ Err (reason_view r)) }
    ensures within { IfOk result (IsBaseWithin T.unit) }
{
    if text.is_empty() {
        Ok(Base::All)
    } else {
        read_base::<T>(text)
    }
}

impl Base {
    // Returns true if the base is written with names.
    fn is_named(self) -> bool
        ensures { result ≡ is_named (base_view self) }
    {
        match self {
            Base::All => false,
            Base::One(number) => number.named,
            Base::Range(first, _) => first.named,
        }
    }

    // The item of this base without a step.
    fn plain<T: TimeUnitField>(self) -> Item
        requires { IsBaseWithin T.unit self }
        ensures item { item_view result ≡ plain T.unit (base_view self) }
        ensures within { IsItemWithin T.unit result }
    {
        let (first, last) = match self {
            Base::All => (T::inclusive_min(), T::inclusive_max()),
            Base::One(one) => (one.number, one.number),
            Base::Range(first, last) => (first.number, last.number),
        };
        Item {
            first,
            last,
            every: 1,
        }
    }

    // The item of this base with the step `every`. A lone number with a step goes on to the field's
    // greatest number.
    fn by_steps<T: TimeUnitField>(self, every: u32) -> Item
        requires base { IsBaseWithin T.unit self }
        requires positive { 0 < every }
        ensures item { item_view result ≡ by_steps T.unit every (base_view self) }
        ensures within { IsItemWithin T.unit result }
    {
        let (first, last) = match self {
            Base::All => (T::inclusive_min(), T::inclusive_max()),
            Base::One(one) => (one.number, T::inclusive_max()),
            Base::Range(first, last) => (first.number, last.number),
        };
        Item { first, last, every }
    }
}

/// Reads an item of a field.
pub(crate) fn read_item<'a, T: TimeUnitField>(text: &'a str) -> Result<Item, Reason<'a>>
    ensures item { MatchResult result
        (λ i. item_of T.unit text.now ≡ Ok (item_view i))
        (λ r. item_of T.unit text.now ≡ Err (reason_view r)) }
    ensures within { IfOk result (IsItemWithin T.unit) }
{
    let (front, behind) = cut_at(text, b'/');
    let Some(rest) = behind else {
        return Ok(read_base::<T>(front)?.plain::<T>());
    };
    let base = read_stepped_base::<T>(front)?;
    if base.is_named() {
        return Err(Reason::NamedStep);
    }
    let (step, more) = cut_at(rest, b'/');
    let every = read_step::<T>(step)?;
    match more {
        None => Ok(base.by_steps::<T>(every)),
        Some(_) => Err(Reason::Ignored(step)),
    }
}
