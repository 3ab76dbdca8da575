//! A union of at most twelve schedules.

ghost use Rattle.std.specs.Prelude.{◌≡◌, ◌<◌, ◌≤◌, ◌++◌, [], ◌∷◌, length};

use cron_units::fields::ScheduleFields;
use std::marker::Model;

/// The most schedules that an expression means: three for each of the four lengths of a month.
const MOST: usize = 12;

/// What an expression means: a union of at most twelve schedules, which contracts see as a list. It
/// fires when any of them does.
#[derive(Drop)]
pub struct Expression {
    schedules: [ScheduleFields; MOST],
    count: usize,
}

impl Model for Expression {
    ghost use Rattle.std.specs.Prelude.{◌≤◌, List, take};
    ghost use Rattle.cron_units.specs.Sets.{Sets};

    ghost Value = { List Sets };

    ghost view = { λ e. take e.count e.schedules };

    ghost invariant = { λ e. e.count ≤ 12 };
}

impl Expression {
    /// An empty union. Its unused places are filled with `fields`.
    pub(crate) fn none(fields: &ScheduleFields) -> Expression
        ensures { result ≡ [] }
    {
        Expression {
            schedules: [*fields; MOST],
            count: 0,
        }
    }

    /// Adds a schedule.
    pub(crate) fn add(&mut self, fields: ScheduleFields)
        requires { length self.old < 12 }
        ensures { self.new ≡ self.old ++ fields ∷ [] }
    {
        self.schedules[self.count] = fields;
        self.count += 1;
    }

    /// Returns the schedules of the union.
    pub fn as_slice(&self) -> &[ScheduleFields]
        ensures list { result.now ≡ self.now }
        ensures few { length result.now ≤ 12 }
    {
        &self.schedules[..self.count]
    }
}
