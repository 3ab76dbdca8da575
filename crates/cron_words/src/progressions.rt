//! Sets whose numbers ascend by a constant step.

ghost use Rattle.std.specs.Prelude.{◌≡◌, ◌==◌, ◌+◌, ◌&&◌, false, true, MatchOption};
ghost use Rattle.cron_words.specs.Progressions.{first, follow_on, goes_by, goes_round, is_progression, last, last_from, step};

use cron_units::time_unit::{Ordinal, OrdinalIter, TimeUnitField, TimeUnitSpec};

/// Numbers from a first to a last by a constant step.
#[derive(Clone, Copy)]
pub(crate) struct Progression {
    pub(crate) first: Ordinal,
    pub(crate) last: Ordinal,
    pub(crate) step: Ordinal,
}

// Returns true if `ordinal` is `last + step`.
fn is_step(last: Ordinal, step: Ordinal, ordinal: Ordinal) -> bool
    ensures { result ≡ (last + step == ordinal) }
{
    u64::from(last) + u64::from(step) == u64::from(ordinal)
}

// The last of `start` and the `ordinals` after it, or `None` if one of them isn't `step` more than
// the one before it.
fn last_by(step: Ordinal, start: Ordinal, ordinals: OrdinalIter<'_>) -> Option<Ordinal>
    ensures { MatchOption result
        (goes_by step start ordinals.entry ≡ false)
        (λ l. (goes_by step start ordinals.entry ≡ true) × (l ≡ last_from start ordinals.entry)) }
{
    let mut last = start;
    for ordinal in ordinals {
        if !is_step(last, step, ordinal) {
            return None;
        }
        last = ordinal;
    }
    Some(last)
}

/// The numbers of a set as a progression, or `None` if they are fewer than two or have no constant
/// step.
pub(crate) fn progression_of<T: TimeUnitSpec>(set: &T) -> Option<Progression>
    ensures { MatchOption result
        (is_progression (T.ordinals set.now) ≡ false)
        (λ p. (is_progression (T.ordinals set.now) ≡ true)
        × (p.first ≡ first (T.ordinals set.now))
        × (p.step ≡ step (T.ordinals set.now))
        × (p.last ≡ last (T.ordinals set.now))) }
{
    let mut ordinals = set.iter();
    let first = ordinals.next()?;
    let second = ordinals.next()?;
    if second <= first {
        return None;
    }
    let step = second - first;
    let last = last_by(step, second, ordinals)?;
    Some(Progression { first, last, step })
}

// Returns true if the progression begins at `least`, and one step more than its last number is
// `greatest + 1`.
fn comes_round(numbers: Progression, least: Ordinal, greatest: Ordinal) -> bool
    ensures { result
        ≡ (numbers.first == least && numbers.last + numbers.step == greatest + 1) }
{
    let next = u64::from(numbers.last) + u64::from(numbers.step);
    numbers.first == least && next == u64::from(greatest) + 1
}

/// The step by which a set goes round its unit, as 15 for minutes 0, 15, 30 and 45, or `None` if it
/// doesn't. It is 1 for a set of all numbers.
#[tactic(auto, using(crate::proofs::ProgressionLemmas::no_round, crate::proofs::ProgressionLemmas::round_is))]
pub(crate) fn round_step<T: TimeUnitField>(set: &T) -> Option<Ordinal>
    ensures { MatchOption result
        (goes_round T.unit (T.members set.now) ≡ false)
        (λ k. (goes_round T.unit (T.members set.now) ≡ true) × (k ≡ step (T.members set.now))) }
{
    let Some(numbers) = progression_of(set) else {
        return None;
    };
    let round = comes_round(numbers, T::inclusive_min(), T::inclusive_max());
    if round { Some(numbers.step) } else { None }
}

/// Returns true if the set goes round its unit.
pub(crate) fn goes_round<T: TimeUnitField>(set: &T) -> bool
    ensures { result ≡ goes_round T.unit (T.members set.now) }
{
    round_step(set).is_some()
}

/// The first and the last number of a set.
#[derive(Clone, Copy)]
pub(crate) struct Ends {
    pub(crate) first: Ordinal,
    pub(crate) last: Ordinal,
}

/// The ends of a set of one number, or of numbers that follow one another. Other sets give `None`.
pub(crate) fn ends_of<T: TimeUnitSpec>(set: &T) -> Option<Ends>
    ensures { MatchOption result
        (follow_on (T.ordinals set.now) ≡ false)
        (λ e. (follow_on (T.ordinals set.now) ≡ true)
        × (e.first ≡ first (T.ordinals set.now))
        × (e.last ≡ last (T.ordinals set.now))) }
{
    let mut ordinals = set.iter();
    let first = ordinals.next()?;
    let last = last_by(1, first, ordinals)?;
    Some(Ends { first, last })
}
