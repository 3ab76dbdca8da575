//! The items of a field, as `5` or `1-9/2`, and the ordinals that they denote, or why an item is
//! refused.

ghost use Rattle.std.specs.Prelude.{◌≡◌, ◌≤◌, ◌<◌, IfOk, IfErr, MatchResult, OnOk, OnErr, Ok, Err, IsTrue, List, ℕ, true};
ghost use Rattle.std.specs.List.{list_all};
ghost use Rattle.cron_units.specs.Denotation.{AddsItem};
ghost use Rattle.cron_units.specs.Inner.ItemSteps.{names_last_day, ordinal, ends, steps_of};
ghost use Rattle.cron_units.specs.Items as items;
ghost use Rattle.cron_units.specs.Keys.{IsKey, is_letter};
ghost use Rattle.cron_units.specs.Refusals.{IsRefusedFor};
ghost use Rattle.cron_units.specs.Units.{with_mark};
ghost use Rattle.cron_units.specs.Views.{base_view, item_view, refusal_view, steps_view};

mod messages;

use crate::time_unit::{Key, Ordinal, TimeUnitField, add_steps};
pub use messages::{RefusedItem, item_error, text_error};

/// The part of an item before its step: `*`, `?`, a number, or a range of numbers or names.
#[derive(Clone, Copy)]
pub enum Base<'a> {
    /// A star: the whole range.
    Every,
    /// A question mark, which means what a star means.
    QuestionMark,
    Single(Ordinal),
    NumberRange(Ordinal, Ordinal),
    NameRange(&'a str, &'a str),
}

/// One item of a field: a base, a base with a step (`1-9/2`), or a name alone.
#[derive(Clone, Copy)]
pub enum Item<'a> {
    Plain(Base<'a>),
    Stepped(Base<'a>, u32),
    Name(&'a str),
}

/// Why an item is refused.
#[derive(Clone, Copy)]
pub enum Refusal<'a> {
    UnknownName(&'a str),
    TooSmall(Ordinal),
    TooLarge(Ordinal),
    BadRange(Ordinal, Ordinal),
    BadNameRange(&'a str, &'a str),
    ZeroStep,
    LargeStep(u32),
}

/// Each `every`-th ordinal from `first` to `last`.
#[derive(Clone, Copy)]
pub struct Progression {
    pub first: Ordinal,
    pub last: Ordinal,
    pub every: u32,
}

/// Returns the ordinal of a name, in any case of its letters, or the refusal of a name that the
/// unit doesn't have.
#[inline(always)]
fn ordinal<'a, T: TimeUnitField>(name: &'a str) -> Result<Ordinal, Refusal<'a>>
    ensures within { IfOk result (λ n. (T.unit.least ≤ n) × (n ≤ T.unit.greatest)) }
    ensures value { MatchResult result
        (λ n. ordinal T.unit name.now ≡ Ok n)
        (λ r. ordinal T.unit name.now ≡ Err (refusal_view r)) }
{
    match T::ordinal_from_name(name) {
        Some(ordinal) => Ok(ordinal),
        None => Err(Refusal::UnknownName(name)),
    }
}

/// Returns the first and the last ordinal of a base, or why the base is refused.
#[inline(always)]
fn ends<'a, T: TimeUnitField>(base: Base<'a>) -> Result<(Ordinal, Ordinal), Refusal<'a>>
    ensures within { IfOk result (λ p. (T.unit.least ≤ p.0) × (p.1 ≤ T.unit.greatest)) }
    ensures value { MatchResult result
        (λ p. ends T.unit (base_view base.entry) ≡ Ok p)
        (λ r. ends T.unit (base_view base.entry) ≡ Err (refusal_view r)) }
{
    let (least, greatest) = (T::inclusive_min(), T::inclusive_max());
    match base {
        Base::Every | Base::QuestionMark => Ok((least, greatest)),
        Base::Single(n) if n < least => Err(Refusal::TooSmall(n)),
        Base::Single(n) if n > greatest => Err(Refusal::TooLarge(n)),
        Base::Single(n) => Ok((n, n)),
        Base::NumberRange(first, last) if first < least || last > greatest || first > last => {
            Err(Refusal::BadRange(first, last))
        }
        Base::NumberRange(first, last) => Ok((first, last)),
        Base::NameRange(from, to) => {
            let first = ordinal::<T>(from)?;
            let last = ordinal::<T>(to)?;
            if first > last {
                return Err(Refusal::BadNameRange(from, to));
            }
            Ok((first, last))
        }
    }
}

// Returns the ordinals of a base with a step, or why they are refused. The step is tested before
// the base. From a single number, the steps go on to the greatest ordinal.
#[inline(always)]
fn steps_over<'a, T: TimeUnitField>(base: Base<'a>, every: u32) -> Result<Progression, Refusal<'a>>
    ensures within { IfOk result
        (λ s. (T.unit.least ≤ s.first) × (s.last ≤ T.unit.greatest) × (0 < s.every)) }
    ensures value { MatchResult result
        (λ s. steps_of T.unit (items.stepped (base_view base.entry) every) ≡ Ok (steps_view s))
        (λ r. steps_of T.unit (items.stepped (base_view base.entry) every) ≡ Err (refusal_view r)) }
{
    if every == 0 {
        return Err(Refusal::ZeroStep);
    }
    let greatest = T::inclusive_max();
    if every > greatest {
        return Err(Refusal::LargeStep(every));
    }
    let (first, last) = ends::<T>(base)?;
    match base {
        Base::Single(_) => Ok(Progression {
            first,
            last: greatest,
            every,
        }),
        _ => Ok(Progression { first, last, every }),
    }
}

/// Returns the ordinals of an item, or why the item is refused.
#[inline(always)]
fn steps_of<'a, T: TimeUnitField>(item: Item<'a>) -> Result<Progression, Refusal<'a>>
    ensures within { IfOk result
        (λ s. (T.unit.least ≤ s.first) × (s.last ≤ T.unit.greatest) × (0 < s.every)) }
    ensures value { MatchResult result
        (λ s. steps_of T.unit (item_view item.entry) ≡ Ok (steps_view s))
        (λ r. steps_of T.unit (item_view item.entry) ≡ Err (refusal_view r)) }
{
    match item {
        Item::Plain(base) => {
            let (first, last) = ends::<T>(base)?;
            Ok(Progression {
                first,
                last,
                every: 1,
            })
        }
        Item::Stepped(base, every) => steps_over::<T>(base, every),
        Item::Name(name) => {
            let only = ordinal::<T>(name)?;
            Ok(Progression {
                first: only,
                last: only,
                every: 1,
            })
        }
    }
}

/// Returns true if the item is the unit's word for the last day of the month. Only the word by
/// itself means that: as an end of a range it is an unknown name, and a single name takes no step.
#[inline(always)]
fn names_last_day<T: TimeUnitField>(item: Item<'_>) -> bool
    ensures { result ≡ names_last_day T.unit (item_view item.entry) }
{
    match item {
        Item::Name(word) => T::means_last_day(word),
        _ => false,
    }
}

/// Adds what an item denotes to a set of the unit: ordinals, or the last day of the month. A
/// refused item leaves the set unchanged.
#[inline(always)]
pub fn add_item<'a, T: TimeUnitField>(set: &mut T, item: Item<'a>) -> Result<(), Refusal<'a>>
    ensures ok { OnOk result
        (AddsItem T.unit
        (item_view item.entry)
        (with_mark (T.members set.old) (T.marked set.old))
        (with_mark (T.members set.new) (T.marked set.new))) }
    ensures err { IfErr result (λ r. IsRefusedFor T.unit (item_view item.entry) (refusal_view r)) }
    ensures unchanged { OnErr result (set.new ≡ set.old) }
{
    set.state_facts();
    if names_last_day::<T>(item) {
        set.mark();
        return Ok(());
    }
    let Progression { first, last, every } = steps_of::<T>(item)?;
    add_steps(set, first, last, every);
    Ok(())
}

/// Adds the ordinal of a name of letters to a set, by the key of the name. Returns `false`, with
/// the set unchanged, if the key belongs to no name. So it does if the unit has a word for the last
/// day of the month, which the name might be.
#[inline(always)]
pub fn add_name<T: TimeUnitField>(set: &mut T, key: Key) -> bool
    ensures { IsTrue result → (word : List ℕ) → list_all is_letter word ≡ true → IsKey word key
        → AddsItem T.unit
        (items.name word)
        (with_mark (T.members set.old) (T.marked set.old))
        (with_mark (T.members set.new) (T.marked set.new)) }
{
    if T::definition().last_day.is_some() {
        return false;
    }
    let Some(only) = T::ordinal_from_key(key) else {
        return false;
    };
    set.state_facts();
    add_steps(set, only, only, 1);
    true
}

/// Adds the ordinals from one name of letters to another to a set, by the keys of the names.
/// Returns `false`, with the set unchanged, if a key belongs to no name, or if the first ordinal is
/// greater than the last.
#[inline(always)]
pub fn add_names<T: TimeUnitField>(set: &mut T, from: Key, to: Key) -> bool
    ensures { IsTrue result → (v w : List ℕ) → list_all is_letter v ≡ true
        → list_all is_letter w ≡ true → IsKey v from → IsKey w to
        → AddsItem T.unit
        (items.plain (items.name_range v w))
        (with_mark (T.members set.old) (T.marked set.old))
        (with_mark (T.members set.new) (T.marked set.new)) }
{
    let Some(first) = T::ordinal_from_key(from) else {
        return false;
    };
    let Some(last) = T::ordinal_from_key(to) else {
        return false;
    };
    if first > last {
        return false;
    }
    set.state_facts();
    add_steps(set, first, last, 1);
    true
}
