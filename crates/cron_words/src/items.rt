//! The numbers of a set, as single numbers, ranges and progressions.

ghost use Rattle.std.specs.Prelude.{◌≡◌, ◌==◌, ◌+◌, ◌++◌, ◌∷◌, [], false, true, map, OnOk, IfOk, MatchOption};
ghost use Rattle.cron_words.specs.Lists.{is_stepped, is_whole, items_of, run_items, runs_as_items};
ghost use Rattle.cron_words.specs.Progressions.{progression};
ghost use Rattle.cron_words.specs.Schedules.{is_one};
ghost use Rattle.cron_words.specs.declared.items.Item.TheVariants.{One};

use crate::progressions::{Progression, progression_of};
use cron_units::time_unit::{Ordinal, OrdinalIter, TimeUnitSpec};
use std::alloc::{AllocError, Global};

/// One number, all numbers from a first to a last, or those by a step.
#[derive(Clone, Copy)]
pub(crate) enum Item {
    One(Ordinal),
    Range(Ordinal, Ordinal),
    Steps(Progression),
}

// Returns true if `ordinal` is `last + 1`.
fn is_next(last: Ordinal, ordinal: Ordinal) -> bool
    ensures { result ≡ (last + 1 == ordinal) }
{
    u64::from(last) + 1 == u64::from(ordinal)
}

// Appends the run from `first` to `last`. A run of two numbers becomes two single numbers.
fn push_run(items: &mut Vec<Item>, first: Ordinal, last: Ordinal) -> Result<(), AllocError>
    ensures { OnOk result (items.new.items ≡ items.old.items ++ run_items (first, last)) }
{
    if first == last {
        items.push(Item::One(first))?;
    } else if is_next(first, last) {
        items.push(Item::One(first))?;
        items.push(Item::One(last))?;
    } else {
        items.push(Item::Range(first, last))?;
    }
    Ok(())
}

// Appends `start` and the `ordinals` after it, which ascend, as single numbers and ranges.
fn push_runs(
    items: &mut Vec<Item>,
    start: Ordinal,
    ordinals: OrdinalIter<'_>,
) -> Result<(), AllocError>
    ensures { OnOk result
        (items.new.items ≡ items.old.items ++ runs_as_items (start ∷ ordinals.entry)) }
{
    let (mut first, mut last) = (start, start);
    for ordinal in ordinals {
        if !is_next(last, ordinal) {
            push_run(items, first, last)?;
            first = ordinal;
        }
        last = ordinal;
    }
    push_run(items, first, last)
}

/// Returns true if the set has each number of its unit.
pub(crate) fn is_whole<T: TimeUnitSpec>(set: &T) -> bool
    ensures { result ≡ is_whole T.time_unit (T.ordinals set.now) }
{
    set.is_all()
}

// Returns the numbers of a set as single numbers and ranges, in ascending order.
fn runs_of<T: TimeUnitSpec>(alloc: Global, set: &T) -> Result<Vec<Item>, AllocError>
    ensures { IfOk result (λ items. items.items ≡ runs_as_items (T.ordinals set.now)) }
{
    let mut items = Vec::new(alloc);
    let mut ordinals = set.iter();
    let Some(start) = ordinals.next() else {
        return Ok(items);
    };
    push_runs(&mut items, start, ordinals)?;
    Ok(items)
}

// The numbers of a set as a progression, if it has five numbers or more by a step of two or more.
fn steps_of<T: TimeUnitSpec>(set: &T) -> Option<Progression>
    ensures { MatchOption result
        (is_stepped (T.ordinals set.now) ≡ false)
        (λ p. (is_stepped (T.ordinals set.now) ≡ true) × (p ≡ progression (T.ordinals set.now))) }
{
    let numbers = progression_of(set)?;
    if numbers.step > 1 && set.count() > 4 {
        Some(numbers)
    } else {
        None
    }
}

/// Returns the numbers of a set as one progression, or as single numbers and ranges, in ascending
/// order.
#[tactic(auto, unfolding(crate::specs::Lists::items_of))]
pub(crate) fn items_of<T: TimeUnitSpec>(alloc: Global, set: &T) -> Result<Vec<Item>, AllocError>
    ensures { IfOk result (λ items. items.items ≡ items_of (T.ordinals set.now)) }
{
    let Some(numbers) = steps_of(set) else {
        return runs_of(alloc, set);
    };
    let mut items = Vec::new(alloc);
    items.push(Item::Steps(numbers))?;
    Ok(items)
}

/// The number of `set` if it has exactly one, else `None`.
pub(crate) fn only<T: TimeUnitSpec>(set: &T) -> Option<Ordinal>
    ensures { MatchOption result
        (is_one (T.ordinals set.now) ≡ false)
        (λ number. T.ordinals set.now ≡ number ∷ []) }
{
    if set.count() == 1 {
        set.iter().next()
    } else {
        None
    }
}

// Appends each of `ordinals` as a single number.
#[tactic(auto, using(crate::proofs::ListLemmas::ones_on, crate::proofs::ListLemmas::ones_end))]
fn push_ones(items: &mut Vec<Item>, ordinals: OrdinalIter<'_>) -> Result<(), AllocError>
    ensures { OnOk result (items.new.items ≡ items.old.items ++ map One ordinals.entry) }
{
    for ordinal in ordinals {
        items.push(Item::One(ordinal))?;
    }
    Ok(())
}

/// Returns each number of a set as a single number, in ascending order.
pub(crate) fn ones_of<T: TimeUnitSpec>(alloc: Global, set: &T) -> Result<Vec<Item>, AllocError>
    ensures { IfOk result (λ items. items.items ≡ map One (T.ordinals set.now)) }
{
    let mut items = Vec::new(alloc);
    push_ones(&mut items, set.iter())?;
    Ok(items)
}
