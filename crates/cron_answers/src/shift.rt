//! Signed amounts of time, such as `+8h`.

ghost use Rattle.std.specs.Prelude.{IfSome, neg_ℤ, pos};
ghost use Rattle.jiff_core.specs.Calendar.{IsBetween};
ghost use Rattle.cron_answers.specs.Instants.{Tells, TellsSecond};
ghost use Rattle.cron_answers.specs.Shifts.{IsCountOf, IsDaysAway, IsSecondsAway, IsSigned};

use cron_walk_listing::arguments::count_of;

// Reads a sign, a number of 32 bits and a unit. `None` for any other text.
fn count_between(text: &str, sign: &str, unit: &str) -> Option<u32>
    ensures { TellsSecond (IsCountOf sign.now unit.now text.now) result }
{
    let Some(rest) = text.strip_prefix(sign) else {
        return None;
    };
    let Some(digits) = rest.strip_suffix(unit) else {
        return None;
    };
    count_of(digits)
}

// Reads a signed number of units. `None` for any other text.
fn signed(text: &str, unit: &str) -> Option<i64>
    ensures number { Tells (IsSigned unit.now text.now) result }
    ensures bound { IfSome result (IsBetween (neg_ℤ (pos 4_294_967_295)) (pos 4_294_967_295)) }
{
    if let Some(count) = count_between(text, "+", unit) {
        return Some(i64::from(count));
    }
    match count_between(text, "-", unit) {
        Some(count) => Some(-i64::from(count)),
        None => None,
    }
}

/// Reads a signed number of seconds, minutes or hours, in seconds. `None` for any other text.
pub(crate) fn seconds_away(text: &str) -> Option<i64>
    ensures amount { Tells (IsSecondsAway text.now) result }
    ensures bound { IfSome result
        (IsBetween (neg_ℤ (pos 20_000_000_000_000)) (pos 20_000_000_000_000)) }
{
    if let Some(seconds) = signed(text, "s") {
        return Some(seconds);
    }
    if let Some(minutes) = signed(text, "m") {
        return Some(minutes * 60);
    }
    match signed(text, "h") {
        Some(hours) => Some(hours * 3600),
        None => None,
    }
}

/// Reads a signed number of days or weeks, in days. `None` for any other text.
pub(crate) fn days_away(text: &str) -> Option<i64>
    ensures amount { Tells (IsDaysAway text.now) result }
    ensures bound { IfSome result (IsBetween (neg_ℤ (pos 40_000_000_000)) (pos 40_000_000_000)) }
{
    if let Some(days) = signed(text, "d") {
        return Some(days);
    }
    match signed(text, "w") {
        Some(weeks) => Some(weeks * 7),
        None => None,
    }
}
