//! Rules of any kind.

use crate::dates::Dates;
use crate::days::Days;
use crate::every::Every;
use crate::opposite::Opposite;
use crate::row::Row;
use crate::span::Span;

/// A rule of any kind, so that one list may hold rules of several kinds.
#[derive(Drop)]
pub enum Rule {
    /// The days of a list of dates, or all others.
    Dates(Dates),
    /// One day, week or month in so many.
    Every(Every),
    /// All others.
    NotEvery(Opposite<Every>),
    /// The days from one date to another.
    Span(Span),
    /// All others.
    NotSpan(Opposite<Span>),
}

impl Days for Rule {
    ghost use Rattle.cron_days.specs.Kinds.{allows_rule};

    ghost allows = { allows_rule };

    fn row_of(&self, day: u32) -> Row {
        match self {
            Rule::Dates(rule) => rule.row_of(day),
            Rule::Every(rule) => rule.row_of(day),
            Rule::NotEvery(rule) => rule.row_of(day),
            Rule::Span(rule) => rule.row_of(day),
            Rule::NotSpan(rule) => rule.row_of(day),
        }
    }
}
