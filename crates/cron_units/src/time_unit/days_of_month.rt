//! The days of a month: numbered ones, and the last one.

ghost use Rattle.std.specs.Prelude.{◌≡◌};

use super::{
    Definition, NumberedDays, NumberedDaysTable, Ordinal, OrdinalIter, TimeUnitField, UnitTable,
};
use crate::way::Way;
use std::marker::Model;

/// The days of a month: the numbered ones, and whether the last day of the month is one more. The
/// methods of `TimeUnitSpec` describe only the numbered days.
#[derive(Debug, Clone, Copy, PartialEq, Eq)]
pub struct DaysOfMonth {
    pub(super) numbered: NumberedDays,
    pub(super) last_day: bool,
}

impl Model for DaysOfMonth {
    ghost use Rattle.cron_units.specs.Units.{FieldSet};

    ghost Value = { FieldSet };

    ghost view = { λ days. record { ordinals = days.numbered; last_day = days.last_day } };

    ghost inverse = { λ set. record { numbered = set.ordinals; last_day = set.last_day } };
}

impl DaysOfMonth {
    /// Returns true if the last day of the month, whatever its number, is a member.
    pub fn last_day(&self) -> bool
        ensures { result ≡ self.now.last_day }
    {
        self.last_day
    }
}

impl TimeUnitField for DaysOfMonth {
    ghost use Rattle.cron_units.specs.Units.{days_of_month};
    ghost use Rattle.cron_units.specs.Laws.{is_unit-days_of_month};

    ghost unit = { days_of_month };

    ghost members = { λ set. set.ordinals };

    ghost marked = { λ set. set.last_day };

    ghost is_unit = { is_unit-days_of_month };

    fn definition() -> Definition {
        Definition {
            last_day: Some("L"),
            ..<NumberedDaysTable as UnitTable<u64>>::definition()
        }
    }

    fn state_facts(&self) {
        self.numbered.state_facts();
    }

    fn empty() -> DaysOfMonth {
        DaysOfMonth {
            numbered: NumberedDays::empty(),
            last_day: false,
        }
    }

    fn insert(&mut self, ordinal: Ordinal) {
        self.numbered.insert(ordinal);
    }

    fn insert_range(&mut self, first: Ordinal, last: Ordinal) {
        self.numbered.insert_range(first, last);
    }

    fn mark(&mut self) {
        self.last_day = true;
    }

    fn insert_steps(&mut self, first: Ordinal, last: Ordinal, every: u32) {
        self.numbered.insert_steps(first, last, every);
    }

    fn contains(&self, ordinal: Ordinal) -> bool {
        self.numbered.contains(ordinal)
    }

    fn len(&self) -> u32 {
        self.numbered.len()
    }

    fn iterate(&self) -> OrdinalIter<'_> {
        self.numbered.iterate()
    }

    fn nearest(&self, way: Way, from: Ordinal) -> Option<Ordinal> {
        self.numbered.nearest(way, from)
    }
}
