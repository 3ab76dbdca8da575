//! Iterators over the members of a set, from both ends.
//!
//! An iterator keeps the bits that are left as a row of 192 bits (`Wide`), whatever the unit, so it
//! has no unit as a parameter. A step from either end clears one bit.

ghost use Rattle.std.specs.Prelude.{◌≡◌, ◌<◌, ◌+◌, ◌^◌, ℕ, true, nat_le, nat_lt, filter};
ghost use Rattle.std.specs.Iterator.{YieldsFirst, YieldsLast};
ghost use Rattle.cron_units.specs.Bounds.{is_from, is_up_to, is_within};
ghost use Rattle.cron_units.specs.Places.{listed};

use super::Ordinal;
use cron_bits::wide::Wide;
use cron_bits::words::Words;
use std::marker::{Model, PhantomData};
use std::ops::Bound;

/// An iterator over the members of a set, in ascending order.
#[derive(Drop)]
pub struct OrdinalIter<'a> {
    remaining: Wide,
    least: Ordinal,
    of: PhantomData<&'a Ordinal>,
}

impl<'a> Model for OrdinalIter<'a> {
    ghost use Rattle.std.specs.Prelude.{◌≡◌, ◌<◌, ◌+◌, ◌^◌, List, ℕ, true};
    ghost use Rattle.cron_units.specs.Places.{listed};

    ghost Value = { List ℕ };

    ghost view = { λ s. listed s.least 192 (⟦<Wide as Words>⟧.has s.remaining) };

    ghost invariant = { λ s. ⟦<Wide as Words>⟧.IsFit s.remaining
        × ((k : ℕ) → ⟦<Wide as Words>⟧.has s.remaining k ≡ true → s.least + k < 2 ^ 32) };
}

impl<'a> OrdinalIter<'a> {
    /// Makes an iterator over the ordinals whose bits are 1. The first bit is for `least`.
    pub(super) fn new(remaining: Wide, least: Ordinal) -> OrdinalIter<'a>
        requires fit { ⟦<Wide as Words>⟧.IsFit remaining }
        requires within { (k : ℕ) → ⟦<Wide as Words>⟧.has remaining k ≡ true → least + k < 2 ^ 32 }
        ensures { result ≡ listed least 192 (⟦<Wide as Words>⟧.has remaining) }
    {
        OrdinalIter {
            remaining,
            least,
            of: PhantomData,
        }
    }

    /// Removes the least ordinal that is left and returns it, or returns `None` if none is left.
    fn take_first(&mut self) -> Option<Ordinal>
        ensures { YieldsFirst (λ rest. rest) self.old result self.new }
    {
        let place = self.remaining.lowest()?;
        self.remaining = self.remaining.without(place);
        Some(self.least + place)
    }

    /// Removes the greatest ordinal that is left and returns it, or returns `None` if none is left.
    fn take_last(&mut self) -> Option<Ordinal>
        ensures { YieldsLast (λ rest. rest) self.old result self.new }
    {
        let place = self.remaining.highest()?;
        self.remaining = self.remaining.without(place);
        Some(self.least + place)
    }

    /// Leaves out the ordinals that aren't between the two bounds of `range`.
    pub(super) fn between(self, range: (Bound<Ordinal>, Bound<Ordinal>)) -> OrdinalIter<'a>
        ensures { result ≡ filter (is_within range.0 range.1) self.entry }
    {
        let OrdinalIter {
            remaining,
            least,
            of,
        } = self;
        let from = place_from(range.0, least);
        let end = place_end(range.1, least);
        OrdinalIter {
            remaining: remaining.at_least(from).below(end),
            least,
            of,
        }
    }
}

/// Returns the number of the first bit whose ordinal satisfies a lower bound. Bit 0 is for `least`.
fn place_from(first: Bound<Ordinal>, least: Ordinal) -> u32
    ensures { (k : ℕ) → k < 192 → nat_le result k ≡ is_from first (least + k) }
{
    match first {
        Bound::Included(first) => first.saturating_sub(least),
        Bound::Excluded(first) if first < least => 0,
        Bound::Excluded(first) => (first - least).saturating_add(1),
        Bound::Unbounded => 0,
    }
}

/// Returns the number of the first bit whose ordinal is above an upper bound. Bit 0 is for `least`.
fn place_end(last: Bound<Ordinal>, least: Ordinal) -> u32
    ensures { (k : ℕ) → k < 192 → nat_lt k result ≡ is_up_to last (least + k) }
{
    match last {
        Bound::Included(last) if last < least => 0,
        Bound::Included(last) => (last - least).saturating_add(1),
        Bound::Excluded(last) => last.saturating_sub(least),
        Bound::Unbounded => u32::MAX,
    }
}

impl<'a> Iterator for OrdinalIter<'a> {
    type Item = Ordinal;

    ghost use Rattle.std.specs.Iterator.{YieldsFirst, item_count};

    ghost next_gives = { YieldsFirst (λ rest. rest) };

    ghost remaining = { item_count (λ rest. rest) };

    fn next(&mut self) -> Option<Ordinal> {
        self.take_first()
    }
}

impl<'a> DoubleEndedIterator for OrdinalIter<'a> {
    ghost use Rattle.std.specs.Iterator.{YieldsLast};

    ghost next_back_gives = { YieldsLast (λ rest. rest) };

    fn next_back(&mut self) -> Option<Ordinal> {
        self.take_last()
    }
}

/// An iterator over the members of a set between two bounds, in ascending order.
#[derive(Drop)]
pub struct OrdinalRangeIter<'a> {
    between: OrdinalIter<'a>,
}

impl<'a> Model for OrdinalRangeIter<'a> {
    ghost use Rattle.std.specs.Prelude.{List, ℕ};

    ghost Value = { List ℕ };

    ghost view = { λ s. s.between };
}

impl<'a> OrdinalRangeIter<'a> {
    /// Makes an iterator over the ordinals that `members` has left between the two bounds of
    /// `range`.
    pub(super) fn new(
        members: OrdinalIter<'a>,
        range: (Bound<Ordinal>, Bound<Ordinal>),
    ) -> OrdinalRangeIter<'a>
        ensures { result ≡ filter (is_within range.0 range.1) members.entry }
    {
        OrdinalRangeIter {
            between: members.between(range),
        }
    }
}

impl<'a> Iterator for OrdinalRangeIter<'a> {
    type Item = Ordinal;

    ghost use Rattle.std.specs.Iterator.{YieldsFirst, item_count};

    ghost next_gives = { YieldsFirst (λ rest. rest) };

    ghost remaining = { item_count (λ rest. rest) };

    fn next(&mut self) -> Option<Ordinal> {
        self.between.next()
    }
}

impl<'a> DoubleEndedIterator for OrdinalRangeIter<'a> {
    ghost use Rattle.std.specs.Iterator.{YieldsLast};

    ghost next_back_gives = { YieldsLast (λ rest. rest) };

    fn next_back(&mut self) -> Option<Ordinal> {
        self.between.next_back()
    }
}
