//! Rows of rules of days.

use anyhow::{Context, Result, bail};
use cron_days::all::All;
use cron_days::dates::Dates;
use cron_days::days::Days;
use cron_days::every::Every;
use cron_days::opposite::Opposite;
use cron_days::period::Period;
use cron_days::rule::Rule;
use cron_days::span::Span;
use cron_moments::civil::DAYS;
use cron_test_rows::Row;
use cron_units::way::Way;
use jiff::civil::Date;
use std::alloc::Global;

/// How many days a rule allows, and sums of their numbers and of the squares of these.
#[derive(Clone, Copy, PartialEq, Eq, Debug)]
struct Sums {
    days: u64,
    numbers: u64,
    squares: u64,
}

impl Sums {
    fn add(&mut self, day: u32) {
        let day = u64::from(day);
        self.days = self.days.wrapping_add(1);
        self.numbers = self.numbers.wrapping_add(day);
        self.squares = self.squares.wrapping_add(day.wrapping_mul(day));
    }
}

const NO_SUMS: Sums = Sums {
    days: 0,
    numbers: 0,
    squares: 0,
};

// The dates of a text, with spaces between them.
fn dates_of(alloc: Global, text: &str) -> Result<Vec<Date>> {
    let mut dates = Vec::new(alloc);
    for word in text.split(' ') {
        if !word.is_empty() {
            dates.push(word.parse::<Date>()?)?;
        }
    }
    Ok(dates)
}

// A date, or none for `-`.
fn end_of(text: &str) -> Result<Option<Date>> {
    if text == "-" {
        return Ok(None);
    }
    Ok(Some(text.parse::<Date>()?))
}

fn span_of(text: &str) -> Result<Span> {
    let (first, last) = text.split_once(" ").context("no span")?;
    Ok(Span::of(end_of(first)?, end_of(last)?)?)
}

fn every_of(text: &str) -> Result<Every> {
    let (count, rest) = text.split_once(" ").context("no number")?;
    let (period, anchor) = rest.split_once(" ").context("no period")?;
    let period = match period {
        "day" => Period::Day,
        "week" => Period::Week,
        "month" => Period::Month,
        _ => bail!("no period"),
    };
    Ok(Every::of(period, count.parse::<u32>()?, anchor.parse::<Date>()?)?)
}

fn opposite_of(alloc: Global, kind: &str, rest: &str) -> Result<Rule> {
    let (kind, rest) = rest.split_once(" ").unwrap_or((rest, kind));
    Ok(match kind {
        "only" => Rule::Dates(Dates::without(alloc, dates_of(alloc, rest)?.as_slice())?),
        "without" => Rule::Dates(Dates::only(alloc, dates_of(alloc, rest)?.as_slice())?),
        "every" => Rule::NotEvery(Opposite {
            rule: every_of(rest)?,
        }),
        "span" => Rule::NotSpan(Opposite {
            rule: span_of(rest)?,
        }),
        _ => bail!("no rule"),
    })
}

fn rule_of(alloc: Global, text: &str) -> Result<Rule> {
    let (kind, rest) = text.split_once(" ").unwrap_or((text, ""));
    Ok(match kind {
        "only" => Rule::Dates(Dates::only(alloc, dates_of(alloc, rest)?.as_slice())?),
        "without" => Rule::Dates(Dates::without(alloc, dates_of(alloc, rest)?.as_slice())?),
        "every" => Rule::Every(every_of(rest)?),
        "span" => Rule::Span(span_of(rest)?),
        _ => return opposite_of(alloc, "", rest),
    })
}

/// The rules of a text, with ` & ` between them.
pub(crate) fn rules_of(alloc: Global, text: &str) -> Result<Vec<Rule>> {
    let mut rules = Vec::new(alloc);
    for part in text.split(" & ") {
        rules.push(rule_of(alloc, part)?)?;
    }
    Ok(rules)
}

// The sums of the days that a search in direction `way` gives.
fn sums_of<D: Days>(rule: &D, way: Way) -> Sums {
    let mut sums = NO_SUMS;
    let mut from = match way {
        Way::Ahead => 0,
        Way::Back => i64::from(DAYS) - 1,
    };
    for _ in 0..DAYS {
        let Some(day) = rule.nearest_day(way, from) else {
            break;
        };
        sums.add(day);
        from = match way {
            Way::Ahead => i64::from(day) + 1,
            Way::Back => i64::from(day) - 1,
        };
    }
    sums
}

/// Compares the days that rules allow, as a search finds them ahead and back, and one by one.
pub(crate) fn ask(row: &mut Row<'_>) -> Result<()> {
    let rules = rules_of(row.alloc(), row.cell())?;
    let all = All {
        rules: rules.as_slice(),
    };
    let mut each = NO_SUMS;
    for day in 0..DAYS {
        if all.has_day(day) {
            each.add(day);
        }
    }
    for sums in [sums_of(&all, Way::Ahead), sums_of(&all, Way::Back), each] {
        row.add("\t", &sums.days)?;
        row.add("\t", &sums.numbers)?;
        row.add("\t", &sums.squares)?;
        row.check("its days")?;
    }
    Ok(())
}
