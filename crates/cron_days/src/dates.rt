//! The days of a list of dates, or all others.
ghost use Rattle.std.specs.Prelude.{◌≡◌, ℕ, not, MatchResult};
ghost use Rattle.cron_days.specs.Rules.{is_listed};
ghost use Rattle.cron_days.specs.Refusals.{RefusesDates};

use crate::day::RuleError;
use crate::days::Days;
use crate::row::Row;
use crate::runs::{Run, row_among, runs_of_dates};
use jiff::civil::Date;
use std::alloc::Global;
use std::marker::Model;

/// The days of a list of dates, or all others. Contracts see the days in order, as stretches.
#[derive(Drop)]
pub struct Dates {
    runs: Vec<Run>,
    kept: bool,
}

impl Model for Dates {
    ghost use Rattle.cron_days.specs.Inner.Runs.{AreApart, Listed};

    ghost Value = { Listed };

    ghost view = { λ dates. record { runs = dates.runs.items; kept = dates.kept } };

    ghost invariant = { λ dates. AreApart dates.runs.items };
}

impl Dates {
    ghost use Rattle.cron_days.specs.Inner.Runs.{allows_listed};

    /// The days of the list alone. The dates may come in any order, and each more than once.
    pub fn only(alloc: Global, dates: &[Date]) -> Result<Dates, RuleError>
        ensures { MatchResult result
            (λ rule. (n : ℕ) → allows_listed rule n ≡ is_listed dates.now n)
            (RefusesDates dates.now) }
    {
        Ok(Dates {
            runs: runs_of_dates(alloc, dates)?,
            kept: true,
        })
    }

    /// All days but those of the list. The dates may come in any order, and each more than once.
    pub fn without(alloc: Global, dates: &[Date]) -> Result<Dates, RuleError>
        ensures { MatchResult result
            (λ rule. (n : ℕ) → allows_listed rule n ≡ not (is_listed dates.now n))
            (RefusesDates dates.now) }
    {
        Ok(Dates {
            runs: runs_of_dates(alloc, dates)?,
            kept: false,
        })
    }
}

impl Days for Dates {
    ghost use Rattle.cron_days.specs.Inner.Runs.{allows_listed};

    ghost allows = { allows_listed };

    fn row_of(&self, day: u32) -> Row {
        let row = row_among(&self.runs, day);
        Row {
            first: row.first,
            last: row.last,
            allowed: row.allowed == self.kept,
        }
    }
}
