//! Functions that make the sets of a unit.

ghost use Rattle.std.specs.Prelude.{◌≡◌, ◌≤◌, ◌<◌, ◌||◌, [], ◌∷◌, false};
ghost use Rattle.cron_units.specs.Steps.{in_steps};
ghost use Rattle.cron_units.specs.Units.{contains, set_of, whole};

use super::{Ordinal, TimeUnitField};

/// Makes the set without members.
pub fn empty<T: TimeUnitField>() -> T
    ensures members { T.members result ≡ [] }
    ensures mark { T.marked result ≡ false }
{
    T::empty()
}

/// Makes the set of all ordinals of a unit.
pub fn whole<T: TimeUnitField>() -> T
    ensures members { T.members result ≡ whole T.unit }
    ensures mark { T.marked result ≡ false }
{
    let mut set = T::empty();
    set.insert_range(T::inclusive_min(), T::inclusive_max());
    set
}

/// Makes the set of one ordinal.
pub fn only<T: TimeUnitField>(ordinal: Ordinal) -> T
    requires low { T.unit.least ≤ ordinal }
    requires high { ordinal ≤ T.unit.greatest }
    ensures members { T.members result ≡ ordinal ∷ [] }
    ensures mark { T.marked result ≡ false }
{
    let mut set = T::empty();
    set.insert(ordinal);
    set
}

/// Adds each `every`-th ordinal of a unit, from `first` to `last`, to a set of the unit.
#[inline(always)]
pub(crate) fn add_steps<T: TimeUnitField>(set: &mut T, first: Ordinal, last: Ordinal, every: u32)
    requires low { T.unit.least ≤ first }
    requires high { last ≤ T.unit.greatest }
    requires every { 0 < every }
    ensures members { T.members set.new
        ≡ set_of T.unit
        (λ x. contains (T.members set.old) x
        || in_steps (record { first = first; last = last; every = every }) x) }
    ensures mark { T.marked set.new ≡ T.marked set.old }
{
    if every == 1 {
        set.insert_range(first, last);
    } else {
        set.insert_steps(first, last, every);
    }
}
