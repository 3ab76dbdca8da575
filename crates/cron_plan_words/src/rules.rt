//! The rules of days that the options of a plan ask for.
ghost use Rattle.std.specs.Prelude.{◌≡◌, ◌<◌, ℕ, IfErr, MatchResult, OnOk};
ghost use Rattle.cron_moments.specs.Civil.{days_in_range};
ghost use Rattle.cron_plans.specs.Plans.{all_allow};
ghost use Rattle.cron_plan_words.specs.Options.{allows_options, is_no_holiday, is_on_step, RefusesEnds, RefusesOptions, RefusesStep};
ghost use Rattle.cron_plan_words.specs.Inner.Rules.{AddsRule};
ghost use Rattle.cron_days.specs.Rules.{is_between};
ghost use Rattle.cron_days.specs.Refusals.{RefusesDates};

use crate::options::{Options, Step};
use cron_days::dates::Dates;
use cron_days::day::RuleError;
use cron_days::every::Every;
use cron_days::rule::Rule;
use cron_days::span::Span;
use jiff::civil::Date;
use std::alloc::Global;

// Adds the rule of `--every`.
fn push_step(rules: &mut Vec<Rule>, step: &Step) -> Result<(), RuleError>
    ensures ok { OnOk result (AddsRule (is_on_step step.now) rules.old.items rules.new.items) }
    ensures err { IfErr result (RefusesStep step.now) }
{
    let rule = Every::of(step.period, step.count, step.anchor)?;
    rules.push(Rule::Every(rule))?;
    Ok(())
}

// Adds the rule of `--first` and `--last`.
fn push_span(
    rules: &mut Vec<Rule>,
    first: Option<Date>,
    last: Option<Date>,
) -> Result<(), RuleError>
    ensures ok { OnOk result (AddsRule (is_between first last) rules.old.items rules.new.items) }
    ensures err { IfErr result (RefusesEnds first last) }
{
    let rule = Span::of(first, last)?;
    rules.push(Rule::Span(rule))?;
    Ok(())
}

// Adds the rule of `--holidays`.
fn push_holidays(alloc: Global, rules: &mut Vec<Rule>, dates: &[Date]) -> Result<(), RuleError>
    ensures ok { OnOk result
        (AddsRule (is_no_holiday dates.now) rules.old.items rules.new.items) }
    ensures err { IfErr result (RefusesDates dates.now) }
{
    let rule = Dates::without(alloc, dates)?;
    rules.push(Rule::Dates(rule))?;
    Ok(())
}

/// The rules of days that `options` ask for. Each day is allowed by all of them exactly if it is on
/// a step of `--every`, from `--first` to `--last`, and no holiday. `Err` says which is refused.
pub fn rules_of(alloc: Global, options: &Options<'_>) -> Result<Vec<Rule>, RuleError>
    ensures { MatchResult result
        (λ rules. (n : ℕ) → n < days_in_range
        → all_allow rules.items n ≡ allows_options options.now n)
        (RefusesOptions options.now) }
{
    let mut rules = Vec::new(alloc);
    if let Some(step) = &options.every {
        push_step(&mut rules, step)?;
    }
    if options.first.is_some() || options.last.is_some() {
        push_span(&mut rules, options.first, options.last)?;
    }
    if let Some(dates) = options.holidays {
        push_holidays(alloc, &mut rules, dates)?;
    }
    Ok(rules)
}
