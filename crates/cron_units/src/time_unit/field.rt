//! The trait of the sets of a unit, with the methods that are the same for every unit.

ghost use Rattle.std.specs.Prelude.{◌≡◌, ◌≤◌, ◌<◌, ◌&&◌, ◌||◌, [], List, ℕ, Bool, true, false, pos, length, nat_eq, nat_le, IfSome, is_some};
ghost use Rattle.std.specs.List.{list_all};
ghost use Rattle.cron_units.specs.Keys.{IsKey, is_letter};
ghost use Rattle.cron_units.specs.Steps.{in_steps};
ghost use Rattle.cron_units.specs.Nearest.{IsNearest};
ghost use Rattle.cron_units.specs.Tables.{definition_view, AreKeyed};
ghost use Rattle.cron_units.specs.Units.{TimeUnit, IsUnit, IsSet, contains, set_of, ordinal_of, means_last_day};

use super::names::{Key, ordinal_keyed, ordinal_named};
use super::{Definition, Ordinal, OrdinalIter};
use crate::way::Way;

/// A unit with its sets. A value is the set of one field, which holds only ordinals of the unit.
/// The set of days of the month may have the last day, whatever its number, as a mark beside its
/// ordinals.
pub trait TimeUnitField: Copy {
    /// The unit, as contracts see it.
    ghost unit: { TimeUnit };

    /// The members of a value, in ascending order.
    ghost members: { Self → List ℕ };

    /// Whether a value has the mark of the last day of the month.
    ghost marked: { Self → Bool };

    /// Returns the table of the unit.
    fn definition() -> Definition
        ensures unit { definition_view result ≡ unit }
        ensures keys { AreKeyed result.names };

    /// Does nothing when it runs. A proof learns from it that the set has only ordinals of the
    /// unit, in ascending order.
    fn state_facts(&self)
        ensures { IsSet unit (members self.now) };

    /// Makes the set without members.
    fn empty() -> Self
        ensures members { members result ≡ [] }
        ensures mark { marked result ≡ false };

    /// Adds an ordinal.
    fn insert(&mut self, ordinal: Ordinal)
        requires low { unit.least ≤ ordinal }
        requires high { ordinal ≤ unit.greatest }
        ensures members { members self.new
            ≡ set_of unit (λ x. contains (members self.old) x || nat_eq x ordinal) }
        ensures mark { marked self.new ≡ marked self.old };

    /// Adds the ordinals from `first` to `last`. None is added if `first` is greater.
    fn insert_range(&mut self, first: Ordinal, last: Ordinal)
        requires low { unit.least ≤ first }
        requires high { last ≤ unit.greatest }
        ensures members { members self.new
            ≡ set_of unit (λ x. contains (members self.old) x || nat_le first x && nat_le x last) }
        ensures mark { marked self.new ≡ marked self.old };

    /// Adds the last day of the month, if the unit has a word for it. Otherwise it does nothing.
    fn mark(&mut self)
        ensures members { members self.new ≡ members self.old }
        ensures mark { marked self.new ≡ is_some unit.last_day };

    /// Adds each `every`-th ordinal from `first` to `last`.
    fn insert_steps(&mut self, first: Ordinal, last: Ordinal, every: u32)
        requires low { unit.least ≤ first }
        requires high { last ≤ unit.greatest }
        requires every { 0 < every }
        ensures members { members self.new
            ≡ set_of unit
            (λ x. contains (members self.old) x
            || in_steps (record { first = first; last = last; every = every }) x) }
        ensures mark { marked self.new ≡ marked self.old };

    /// Returns true if the ordinal is a member.
    fn contains(&self, ordinal: Ordinal) -> bool
        ensures { result ≡ contains (members self.now) ordinal };

    /// Counts the members.
    fn len(&self) -> u32
        ensures { result ≡ length (members self.now) };

    /// Returns an iterator over the members, in ascending order.
    fn iterate(&self) -> OrdinalIter<'_>
        ensures { result ≡ members self.now };

    /// Returns the nearest member from `from` on in the direction `way`, `from` itself included, or
    /// `None` if there is none.
    fn nearest(&self, way: Way, from: Ordinal) -> Option<Ordinal>
        ensures nearest { IsNearest way (contains (members self.now)) (pos from) result }
        ensures within { IfSome result (λ n. (unit.least ≤ n) × (n ≤ unit.greatest)) };

    /// The unit's bounds are in order, the ordinals of its names are within them, and 32 bits count
    /// its ordinals.
    ghost is_unit: { IsUnit unit };

    /// Returns what messages call the unit.
    final fn name() -> &'static str
        ensures { result.now ≡ unit.title }
    {
        Self::definition().title
    }

    /// Returns the least ordinal.
    final fn inclusive_min() -> Ordinal
        ensures { result ≡ unit.least }
    {
        Self::definition().least
    }

    /// Returns the greatest ordinal.
    final fn inclusive_max() -> Ordinal
        ensures { result ≡ unit.greatest }
    {
        Self::definition().greatest
    }

    /// Returns true if `?` means the whole range.
    final fn takes_question_mark() -> bool
        ensures { result ≡ unit.question_mark }
    {
        Self::definition().question_mark
    }

    /// Returns the ordinal of a name, in any case of its letters, or `None` if it is no name of the
    /// unit.
    final fn ordinal_from_name(name: &str) -> Option<Ordinal>
        ensures value { result ≡ ordinal_of unit name.now }
        ensures within { IfSome result (λ n. (unit.least ≤ n) × (n ≤ unit.greatest)) }
    {
        let names = Self::definition().names?;
        ordinal_named(names, name)
    }

    /// Returns the ordinal of a name of letters by its key, or `None` if no name of the unit has
    /// that key.
    #[inline(always)]
    final fn ordinal_from_key(key: Key) -> Option<Ordinal>
        ensures value { (name : List ℕ) → list_all is_letter name ≡ true → IsKey name key
            → result ≡ ordinal_of unit name }
        ensures within { IfSome result (λ n. (unit.least ≤ n) × (n ≤ unit.greatest)) }
    {
        let names = Self::definition().names?;
        ordinal_keyed(names, key)
    }

    /// Returns true if the name means the last day of the month, in any case of its letters.
    final fn means_last_day(name: &str) -> bool
        ensures { result ≡ means_last_day unit name.now }
    {
        match Self::definition().last_day {
            Some(last) => last.eq_ignore_ascii_case(name),
            None => false,
        }
    }
}
