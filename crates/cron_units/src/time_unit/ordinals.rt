//! Sets of ordinals, a bit for each ordinal of the unit.

ghost use Rattle.std.specs.Prelude.{◌≡◌, ◌<◌, ◌+◌, ◌-◌, None};
ghost use Rattle.cron_units.specs.Units.{TimeUnit, IsUnit, set_of};
ghost use Rattle.cron_units.specs.Places.{placed, NonePast};
ghost use Rattle.cron_units.specs.Tables.{definition_view, AreKeyed};

use super::{Definition, Ordinal, OrdinalIter, TimeUnitField};
use crate::way::Way;
use cron_bits::wide::widen;
use cron_bits::words::Words;
use std::alloc::AllocError;
use std::marker::{Model, PhantomData};

/// The table of a unit whose sets are stored in `W`.
pub trait UnitTable<W: Words>: Copy {
    /// The unit, as contracts see it.
    ghost unit: { TimeUnit };

    /// Returns the table of the unit.
    fn definition() -> Definition
        ensures unit { definition_view result ≡ unit }
        ensures keys { AreKeyed result.names };

    /// Returns the least ordinal.
    final fn least() -> Ordinal
        ensures { result ≡ unit.least }
    {
        Self::definition().least
    }

    /// Returns the greatest ordinal.
    final fn greatest() -> Ordinal
        ensures { result ≡ unit.greatest }
    {
        Self::definition().greatest
    }

    /// The unit's bounds are in order, the ordinals of its names are within them, and 32 bits count
    /// its ordinals.
    ghost is_unit: { IsUnit unit };

    /// No name means the last day of the month.
    ghost unmarked: { unit.last_day ≡ None };

    /// A row of bits of `W` has a bit for each ordinal.
    ghost fits: { unit.greatest < unit.least + W.size };

    /// An iterator, which keeps 192 bits, has a bit for each ordinal.
    ghost iterates: { unit.greatest < unit.least + 192 };
}

/// A set of ordinals of a unit. Bit i stands for the least ordinal plus i.
#[derive(Debug)]
pub struct Ordinals<U: UnitTable<W>, W: Words> {
    pub(super) words: W,
    of: PhantomData<U>,
}

impl<U: UnitTable<W>, W: Words> Model for Ordinals<U, W> {
    ghost use Rattle.std.specs.Prelude.{◌+◌, List, ℕ};
    ghost use Rattle.cron_units.specs.Units.{contains};
    ghost use Rattle.cron_units.specs.Places.{placed, IsLaidOut};

    ghost Value = { List ℕ };

    ghost view = { λ s. placed U.unit (W.has s.words) };

    ghost invariant = { λ s. IsLaidOut U.unit W.IsFit W.has W.made s.words };

    ghost inverse = { λ ordinals. record {
      words = W.made (λ k. contains ordinals (U.unit.least + k));
      of = record {};
    } };

    ghost use Rattle.std.proofs.Common.{ap};

    ghost inverse_ok = { λ s laid. ap (λ words. record { words = words; of = s.of }) laid.remade };
}

impl<U: UnitTable<W>, W: Words> Clone for Ordinals<U, W> {
    ghost use Rattle.std.specs.Prelude.{◌≡◌, ⊤};

    ghost is_clone = { λ set copy. copy ≡ set };

    ghost is_infallible = { λ _. ⊤ };

    fn clone(&self) -> Result<Ordinals<U, W>, AllocError> {
        Ok(*self)
    }
}

impl<U: UnitTable<W>, W: Words> Copy for Ordinals<U, W> {}

impl<U: UnitTable<W>, W: Words> Ordinals<U, W> {
    /// Makes the set of the ordinals whose bits are 1. Bits after the bit of the greatest ordinal
    /// mean nothing.
    pub(super) fn cut(words: W) -> Ordinals<U, W>
        requires { W.IsFit words }
        ensures { result ≡ set_of U.unit (λ x. W.has words (x - U.unit.least)) }
    {
        Ordinals::from_words(words.below(U::greatest() - U::least() + 1))
    }

    /// Makes the set from its words, which have no 1 after the bit of the greatest ordinal.
    fn from_words(words: W) -> Ordinals<U, W>
        requires fit { W.IsFit words }
        requires none_past { NonePast U.unit (W.has words) }
        ensures { result ≡ placed U.unit (W.has words) }
    {
        Ordinals {
            words,
            of: PhantomData,
        }
    }
}

impl<U: UnitTable<W>, W: Words> TimeUnitField for Ordinals<U, W> {
    ghost use Rattle.std.specs.Prelude.{false};

    ghost unit = { U.unit };

    ghost members = { λ ordinals. ordinals };

    ghost marked = { λ _. false };

    ghost is_unit = { U.is_unit };

    fn definition() -> Definition {
        U::definition()
    }

    fn state_facts(&self) {
        let _words = &self.words;
    }

    fn empty() -> Ordinals<U, W> {
        Ordinals::from_words(W::none())
    }

    fn insert(&mut self, ordinal: Ordinal) {
        *self = Ordinals::from_words(self.words.with(ordinal - U::least()));
    }

    #[inline(always)]
    fn insert_range(&mut self, first: Ordinal, last: Ordinal) {
        if first <= last {
            let least = U::least();
            let range = W::full().at_least(first - least).below(last - least + 1);
            *self = Ordinals::from_words(self.words.join(range));
        }
    }

    fn mark(&mut self) {}

    #[inline(never)]
    fn insert_steps(&mut self, first: Ordinal, last: Ordinal, every: u32) {
        if first <= last {
            let least = U::least();
            let steps = W::every_nth(first - least, every).below(last - least + 1);
            *self = Ordinals::from_words(self.words.join(steps));
        }
    }

    fn contains(&self, ordinal: Ordinal) -> bool {
        let least = U::least();
        ordinal >= least && self.words.contains(ordinal - least)
    }

    fn len(&self) -> u32 {
        self.words.count()
    }

    fn iterate(&self) -> OrdinalIter<'_> {
        OrdinalIter::new(widen(self.words), U::least())
    }

    fn nearest(&self, way: Way, from: Ordinal) -> Option<Ordinal> {
        let least = U::least();
        match way {
            Way::Ahead => {
                let place = self.words.at_least(from.saturating_sub(least)).lowest()?;
                Some(least + place)
            }
            Way::Back if from < least => None,
            Way::Back => {
                let last = from.min(U::greatest()) - least;
                let place = self.words.below(last + 1).highest()?;
                Some(least + place)
            }
        }
    }
}

impl<U: UnitTable<W>, W: Words> PartialEq for Ordinals<U, W> {
    ghost use Rattle.std.specs.Prelude.{◌==◌};
    ghost use Rattle.std.specs.Cmp.Lexicographic.{pointwise};
    ghost use Rattle.std.specs.Cmp.Rules.{comparing};
    ghost use Rattle.std.proofs.Common.{rules};

    ghost eq = { pointwise ◌==◌ };

    ghost laws = { Prim.search (comparing, rules) };

    fn eq(&self, other: &Ordinals<U, W>) -> bool {
        self.words.same(other.words)
    }
}

impl<U: UnitTable<W>, W: Words> Eq for Ordinals<U, W> {
    ghost use Rattle.std.specs.Cmp.Rules.{comparing};
    ghost use Rattle.std.proofs.Common.{rules};

    ghost laws = { Prim.search (comparing, rules) };
}
