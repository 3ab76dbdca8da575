//! How often days are allowed, as a word says it.
ghost use Rattle.std.specs.Prelude.{◌≡◌};
ghost use Rattle.cron_plan_words.specs.Steps.{TellsStep, unit_of};
ghost use Rattle.cron_plan_words.specs.Inner.Steps.{TellsCount};

use cron_days::period::Period;
use cron_walk_listing::arguments::count_of;

// The letters that follow the number.
fn unit_of(period: Period) -> &'static str
    ensures { result.now ≡ unit_of period }
{
    match period {
        Period::Day => "d",
        Period::Week => "w",
        Period::Month => "mo",
    }
}

// The number before the letters of `period`. `None` for any other text.
fn count_before(text: &str, period: Period) -> Option<u32>
    ensures { TellsCount text.now period result }
{
    let Some(digits) = text.strip_suffix(unit_of(period)) else {
        return None;
    };
    count_of(digits)
}

/// Reads a number of 32 bits and a unit: `d` for days, `w` for weeks, `mo` for months. `2w` is
/// every other week. `None` for any other text.
pub fn step_of(text: &str) -> Option<(u32, Period)>
    ensures { TellsStep text.now result }
{
    if let Some(days) = count_before(text, Period::Day) {
        return Some((days, Period::Day));
    }
    if let Some(weeks) = count_before(text, Period::Week) {
        return Some((weeks, Period::Week));
    }
    match count_before(text, Period::Month) {
        Some(months) => Some((months, Period::Month)),
        None => None,
    }
}
