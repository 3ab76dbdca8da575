//! How late fires may be run.

ghost use Rattle.std.specs.Prelude.{◌≡◌};
ghost use Rattle.cron_agenda_scheduler.specs.declared.lateness.Lateness.{Lateness};
ghost use Rattle.cron_agenda_scheduler.specs.declared.lateness.Lateness.TheVariants.{Each};

use cron_fires::{CivilSeconds, Union};
use cron_units::fields::ScheduleFields;
use cron_units::way::Way;

/// Which due fires of an entry are run when the clock is read. The others are passed over.
#[derive(Clone, Copy, Debug, PartialEq, Eq)]
pub enum Lateness {
    /// Each due fire, however late.
    Each,
    /// The due fires at most this number of seconds old when the clock is read.
    Within(u64),
    /// Only the last due fire.
    Latest,
}

/// A set of civil seconds with a lateness: how late its fires may be run.
pub trait HasLateness {
    ghost lateness: { Self → Lateness };

    /// How late the fires may be run.
    fn lateness(&self) -> Lateness
        ensures { result ≡ lateness self.now };
}

/// What fires, with how late its fires may be run.
#[derive(Clone, Copy)]
pub struct Timely<T> {
    /// What fires.
    pub table: T,
    /// How late its fires may be run.
    pub lateness: Lateness,
}

impl<T> HasLateness for Timely<T> {
    ghost lateness = { λ t. t.lateness };

    fn lateness(&self) -> Lateness {
        self.lateness
    }
}

/// Each fire is run, however late.
impl HasLateness for ScheduleFields {
    ghost lateness = { λ _. Each };

    fn lateness(&self) -> Lateness {
        Lateness::Each
    }
}

/// Each fire is run, however late.
impl<'a> HasLateness for Union<'a> {
    ghost lateness = { λ _. Each };

    fn lateness(&self) -> Lateness {
        Lateness::Each
    }
}

impl<T: CivilSeconds> CivilSeconds for Timely<T> {
    ghost has = { λ t. T.has t.table };

    type Cursor = T::Cursor;

    ghost knows = { λ t cursor. T.knows t.table cursor };

    #[inline(always)]
    fn nearest(&self, way: Way, from: i64) -> Option<u32> {
        self.table.nearest(way, from)
    }

    #[inline(always)]
    fn begin() -> T::Cursor {
        T::begin()
    }

    #[inline(always)]
    fn past(&self, way: Way, second: u32, cursor: &mut T::Cursor) -> Option<u32> {
        self.table.past(way, second, cursor)
    }

    #[inline(always)]
    fn is_clear(&self, first: u32, end: u32) -> bool {
        self.table.is_clear(first, end)
    }
}
