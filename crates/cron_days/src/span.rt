//! The days from one date to another.
ghost use Rattle.std.specs.Prelude.{◌≡◌, ◌<◌, ◌≤◌, ◌&&◌, ℕ, nat_le, MatchResult};
ghost use Rattle.cron_moments.specs.Civil.{days_in_range};
ghost use Rattle.cron_days.specs.Rules.{is_between};
ghost use Rattle.cron_days.specs.Refusals.{RefusesDate, RefusesSpan};
ghost use Rattle.cron_days.specs.Inner.Ends.{IsNumberOr};

use crate::day::{RuleError, number_of};
use crate::days::Days;
use crate::row::Row;
use cron_moments::civil::DAYS;
use jiff::civil::Date;

/// The days from a first date to a last one.
#[derive(Clone, Copy)]
pub struct Span {
    first: u32,
    last: u32,
    ghost in_range: { (first < days_in_range) × (last < days_in_range) },
}

// The number of a date, or `otherwise` without a date.
fn number_or(date: &Option<Date>, otherwise: u32) -> Result<u32, RuleError>
    requires { otherwise < days_in_range }
    ensures { MatchResult result
        (λ n. (n < days_in_range) × IsNumberOr date.now otherwise n)
        (RefusesDate date.now) }
{
    match date {
        Some(date) => number_of(*date),
        None => Ok(otherwise),
    }
}

impl Span {
    /// The days from `first` to `last`, these two among them. Either date may be left out.
    pub fn of(first: Option<Date>, last: Option<Date>) -> Result<Span, RuleError>
        ensures { MatchResult result
            (λ span. (n : ℕ) → n < days_in_range
            → (nat_le span.first n && nat_le n span.last) ≡ is_between first last n)
            (RefusesSpan first last) }
    {
        let from = number_or(&first, 0)?;
        let to = number_or(&last, DAYS - 1)?;
        if let Some(first) = &first
            && let Some(last) = &last
            && to < from
        {
            return Err(RuleError::Turned {
                first: *first,
                last: *last,
            });
        }
        Ok(Span {
            first: from,
            last: to,
        })
    }
}

impl Days for Span {
    ghost use Rattle.std.specs.Prelude.{◌&&◌, nat_le};

    ghost allows = { λ span n. nat_le span.first n && nat_le n span.last };

    fn row_of(&self, day: u32) -> Row {
        if day < self.first {
            return Row {
                first: 0,
                last: self.first - 1,
                allowed: false,
            };
        }
        if day > self.last {
            return Row {
                first: self.last + 1,
                last: DAYS - 1,
                allowed: false,
            };
        }
        Row {
            first: self.first,
            last: self.last,
            allowed: true,
        }
    }
}
