//! One schedule or two.

ghost use Rattle.std.specs.Prelude.{◌≡◌, ◌≤◌, [], ◌∷◌, length};

use cron_units::fields::ScheduleFields;
use std::marker::Model;

/// One schedule or two, which contracts see as a list. It fires when any of them does.
#[derive(Drop)]
pub struct Schedules {
    schedules: [ScheduleFields; 2],
    count: usize,
}

impl Model for Schedules {
    ghost use Rattle.std.specs.Prelude.{◌≤◌, List, take};
    ghost use Rattle.cron_units.specs.Sets.{Sets};

    ghost Value = { List Sets };

    ghost view = { λ s. take s.count s.schedules };

    ghost invariant = { λ s. s.count ≤ 2 };
}

impl Schedules {
    pub(crate) fn one(fields: ScheduleFields) -> Schedules
        ensures { result ≡ fields ∷ [] }
    {
        Schedules {
            schedules: [fields, fields],
            count: 1,
        }
    }

    pub(crate) fn two(first: ScheduleFields, second: ScheduleFields) -> Schedules
        ensures { result ≡ first ∷ second ∷ [] }
    {
        Schedules {
            schedules: [first, second],
            count: 2,
        }
    }

    /// Returns the one schedule or both.
    pub fn as_slice(&self) -> &[ScheduleFields]
        ensures list { result.now ≡ self.now }
        ensures few { length result.now ≤ 2 }
    {
        &self.schedules[..self.count]
    }
}
