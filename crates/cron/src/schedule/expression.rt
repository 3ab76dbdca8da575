//! A schedule: the text that it was read from, and the seven sets that the text means.

ghost use Rattle.std.specs.Prelude.{◌≡◌, ◌==◌, ◌↔◌, IfOk, IsTrue, Some};
ghost use Rattle.std.specs.String.{string_bytes};
ghost use Rattle.cron_text.specs.Meaning.{Means};
ghost use Rattle.cron_units.specs.Sets.{AreSets};
ghost use Rattle.cron_time.specs.Matches.{matches};

use cron_time::matching;
use cron_units::fields::ScheduleFields;
use cron_units::time_unit::{DaysOfMonth, DaysOfWeek, Hours, Minutes, Months, Seconds, Years};
use jiff::civil::DateTime;
use std::alloc::AllocError;
use std::fmt;
use std::marker::Model;

/// The civil seconds that a cron expression means. Contracts see its source and its seven sets.
#[derive(Debug, Drop)]
pub struct Schedule {
    source: String,
    fields: ScheduleFields,
}

impl Model for Schedule {
    ghost use Rattle.std.specs.String.{string_bytes};
    ghost use Rattle.cron_text.specs.Meaning.{Means};
    ghost use Rattle.cron.specs.Plan.{Plan};

    ghost Value = { Plan };

    ghost view = { λ s. record { source = string_bytes s.source; sets = s.fields } };

    ghost invariant = { λ s. Means (string_bytes s.source) s.fields };
}

impl Schedule {
    pub(crate) fn new(source: String, fields: ScheduleFields) -> Schedule
        requires { Means (string_bytes source) fields }
        ensures source { result.source ≡ string_bytes source }
        ensures sets { result.sets ≡ fields }
    {
        Schedule { source, fields }
    }

    /// The seven sets, for functions that take sets in place of a schedule.
    #[inline(always)]
    pub fn fields(&self) -> &ScheduleFields
        ensures { result.now ≡ self.now.sets }
    {
        &self.fields
    }

    /// The sets, none of which is empty, except days of the month that have the mark of the last
    /// day.
    pub(crate) fn filled_fields(&self) -> &ScheduleFields
        ensures sets { result.now ≡ self.now.sets }
        ensures filled { AreSets result.now }
    {
        &self.fields
    }

    pub(crate) fn into_fields(self) -> ScheduleFields
        ensures { result ≡ self.sets }
    {
        let Schedule { fields, .. } = self;
        fields
    }

    /// A copy with the same source and the same sets. If memory runs out nothing changes.
    pub fn clone(&self) -> Result<Schedule, AllocError>
        ensures { IfOk result (λ copy. copy ≡ self.now) }
    {
        Ok(Schedule {
            source: self.source.clone()?,
            fields: self.fields,
        })
    }

    /// The text that was read, white space included. The sets are the ones that it means.
    pub fn source(&self) -> &str
        ensures text { result.now ≡ self.now.source }
        ensures means { Means self.now.source self.now.sets }
    {
        self.source.as_str()
    }

    /// Returns true if the seven fields of `date_time` are in the sets. A fraction of a second is
    /// ignored, and no year outside 1970 to 2100 is ever in the set of years.
    pub fn includes(&self, date_time: DateTime) -> bool
        ensures { result ≡ matches self.now.sets date_time }
    {
        matching::includes(&self.fields, date_time)
    }

    /// The set of years.
    pub fn years(&self) -> &Years
        ensures { result.now ≡ self.now.sets.years }
    {
        &self.fields.years
    }

    /// The set of months, from 1 for January.
    pub fn months(&self) -> &Months
        ensures { result.now ≡ self.now.sets.months }
    {
        &self.fields.months
    }

    /// The set of days of the month. Its views show the numbered days only. Its `last_day` says
    /// whether the last day is in the set.
    pub fn days_of_month(&self) -> &DaysOfMonth
        ensures { result.now ≡ self.now.sets.days_of_month }
    {
        &self.fields.days_of_month
    }

    /// The set of days of the week, from 1 for Sunday.
    pub fn days_of_week(&self) -> &DaysOfWeek
        ensures { result.now ≡ self.now.sets.days_of_week }
    {
        &self.fields.days_of_week
    }

    /// The set of hours.
    pub fn hours(&self) -> &Hours
        ensures { result.now ≡ self.now.sets.hours }
    {
        &self.fields.hours
    }

    /// The set of minutes.
    pub fn minutes(&self) -> &Minutes
        ensures { result.now ≡ self.now.sets.minutes }
    {
        &self.fields.minutes
    }

    /// The set of seconds.
    pub fn seconds(&self) -> &Seconds
        ensures { result.now ≡ self.now.sets.seconds }
    {
        &self.fields.seconds
    }

    /// Returns true if all seven sets are equal, however they were written. The mark of the last
    /// day of the month is part of a set: `*,L` and `*` differ, though they mean the same days.
    pub fn timeunitspec_eq(&self, other: &Schedule) -> bool
        ensures { IsTrue result ↔ (self.now.sets ≡ other.now.sets) }
    {
        self.fields == other.fields
    }
}

impl fmt::Display for Schedule {
    ghost output = { λ s. Some s.source };

    ghost styled_output = { λ s _. Some s.source };

    fn fmt<W: fmt::Write>(&self, f: &mut fmt::Formatter<W>) -> fmt::Result {
        f.write_str(self.source.as_str())
    }
}

impl From<Schedule> for String {
    ghost from_gives = { λ schedule text. string_bytes text ≡ schedule.source };

    fn from(schedule: Schedule) -> String {
        schedule.source
    }
}

impl PartialEq for Schedule {
    ghost use Rattle.std.proofs.Common.{rules};
    ghost use Rattle.std.specs.Cmp.Rules.{comparing};
    ghost use Rattle.std.specs.Ordering.{on};
    ghost use Rattle.std.specs.Str.{bytes_eq};

    ghost eq = { on (λ s. s.source) bytes_eq };

    ghost laws = { Prim.search (comparing, rules) };

    fn eq(&self, other: &Schedule) -> bool {
        self.source == other.source
    }
}

impl Eq for Schedule {
    ghost use Rattle.std.proofs.Common.{rules};
    ghost use Rattle.std.specs.Cmp.Rules.{comparing};

    ghost laws = { Prim.search (comparing, rules) };
}
