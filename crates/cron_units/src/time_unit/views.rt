//! The public view of a unit's set.

ghost use Rattle.std.specs.Prelude.{◌≡◌, ◌<◌, ◌^◌, ◌↔◌, List, ℕ, IsTrue, filter, length};
ghost use Rattle.cron_units.specs.Bounds.{IsForward, is_within};
ghost use Rattle.cron_units.specs.Units.{TimeUnit, IsSet, contains, whole};

use super::{Ordinal, OrdinalIter, OrdinalRangeIter, TimeUnitField};
use std::ops::Bound;

/// The set of one field of a schedule.
///
/// ```text
/// let minutes = schedule.minutes(); // of `0 0,30 9 * * *`
/// minutes.includes(30); // true
/// minutes.count(); // 2
/// for minute in minutes.iter() { .. } // 0, 30
/// for minute in minutes.range((Bound::Excluded(0), Bound::Unbounded)) { .. } // 30
/// ```
pub trait TimeUnitSpec {
    /// The unit of the ordinals.
    ghost time_unit: { TimeUnit };

    /// The members, in ascending order.
    ghost ordinals: { Self → List ℕ };

    /// Returns true if the ordinal is a member.
    fn includes(&self, ordinal: Ordinal) -> bool
        ensures { result ≡ contains (ordinals self.now) ordinal };

    /// Returns an iterator over the members, in ascending order.
    fn iter(&self) -> OrdinalIter<'_>
        ensures members { result ≡ ordinals self.now }
        ensures set { IsSet time_unit (ordinals self.now) }
        ensures countable { length result < 2 ^ 32 };

    /// Returns an iterator over the members between two bounds, in ascending order. The first bound
    /// must not be above the second, nor may both exclude one number. A bound need not be an
    /// ordinal of the unit.
    fn range(&self, range: (Bound<Ordinal>, Bound<Ordinal>)) -> OrdinalRangeIter<'_>
        requires { IsForward range.0 range.1 }
        ensures members { result ≡ filter (is_within range.0 range.1) (ordinals self.now) }
        ensures countable { length result < 2 ^ 32 };

    /// Counts the members.
    fn count(&self) -> u32
        ensures { result ≡ length (ordinals self.now) };

    /// Returns true if the set is the unit's whole range, however it was written.
    fn is_all(&self) -> bool
        ensures { IsTrue result ↔ (ordinals self.now ≡ whole time_unit) };
}

impl<T: TimeUnitField> TimeUnitSpec for T {
    ghost time_unit = { T.unit };

    ghost ordinals = { T.members };

    fn includes(&self, ordinal: Ordinal) -> bool {
        self.contains(ordinal)
    }

    fn iter(&self) -> OrdinalIter<'_> {
        self.state_facts();
        self.iterate()
    }

    fn range(&self, range: (Bound<Ordinal>, Bound<Ordinal>)) -> OrdinalRangeIter<'_> {
        self.state_facts();
        OrdinalRangeIter::new(self.iterate(), range)
    }

    fn count(&self) -> u32 {
        self.len()
    }

    fn is_all(&self) -> bool {
        self.state_facts();
        let whole = T::inclusive_max() - T::inclusive_min() + 1;
        whole == self.len()
    }
}
