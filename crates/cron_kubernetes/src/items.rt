//! Items of a field: stars, numbers and ranges, and their steps.

ghost use Rattle.std.specs.Prelude.{◌≡◌, ◌<◌, ◌≤◌, ◌+◌, ◌-◌, ◌%◌, ◌==◌, ◌^◌, ℕ, IfOk, MatchResult, Ok, Err};
ghost use Rattle.cron_bits.specs.Words.{has_bit};
ghost use Rattle.cron_units.specs.Steps.{in_steps};
ghost use Rattle.cron_crontab.specs.Items.{pieces};
ghost use Rattle.cron_kubernetes.specs.Items.{base_of, by_step, each, is_star, item_of, plain};
ghost use Rattle.cron_kubernetes.specs.Views.{reason_view};
ghost use Rattle.cron_kubernetes.specs.Inner.Reading.{IsBaseWithin, IsItemRead, IsKept, base_view};

use crate::faults::{Reason, greatest};
use crate::numbers::{read_number, read_step};
use cron_bits::words::Words;
use cron_crontab::{Field, cut_at};

/// More steps than a field has numbers.
const PAST_ALL: u64 = 64;

/// The numbers of an item or a field as bits, where bit 0 is the field's least number, and whether
/// it counts as a star for the rule of days.
#[derive(Clone, Copy)]
pub(crate) struct Numbers {
    pub bits: u64,
    pub star: bool,
}

/// The part of an item before its step.
#[derive(Clone, Copy)]
pub(crate) enum Base {
    All,
    Single(u32),
    Range(u32, u32),
}

fn is_star(text: &str) -> bool
    ensures { result ≡ is_star text.now }
{
    text == "*" || text == "?"
}

// Reads a star, one number, or two with a dash between them. What follows a star and a dash counts
// for nothing.
fn read_base<'a>(field: Field, text: &'a str) -> Result<Base, Reason<'a>>
    ensures base { MatchResult result
        (λ b. base_of field text.now ≡ Ok (base_view b))
        (λ r. base_of field text.now ≡ Err (reason_view r)) }
    ensures within { IfOk result (IsBaseWithin field) }
{
    let (front, behind) = cut_at(text, b'-');
    if is_star(front) {
        return Ok(Base::All);
    }
    let first = read_number(field, front)?;
    let Some(rest) = behind else {
        return Ok(Base::Single(first));
    };
    let (back, more) = cut_at(rest, b'-');
    if let Some(_) = more {
        return Err(Reason::SecondDash);
    }
    let last = read_number(field, back)?;
    if last < first {
        return Err(Reason::Backward(first, last));
    }
    Ok(Base::Range(first, last))
}

// The numbers from `first` to `last` by steps of `every`, as bits, where bit 0 is `least`.
fn bits_of(least: u32, first: u32, last: u32, every: u32) -> u64
    requires first { least ≤ first }
    requires last { least ≤ last }
    requires room { last < least + 64 }
    requires every { 0 < every }
    ensures fit { result < 2 ^ 64 }
    ensures bits { (x : ℕ)
        → least ≤ x
        → has_bit result (x - least) ≡ in_steps (each first last every) x }
{
    u64::every_nth(first - least, every).below(last - least + 1)
}

// A step that goes as far as `every` does within 64 numbers.
fn within_all(every: u64) -> u32
    requires { 0 < every }
    ensures positive { 0 < result }
    ensures same { (n : ℕ) → n < 64 → (n % result == 0) ≡ (n % every == 0) }
{
    if every < PAST_ALL { every as u32 } else { 64 }
}

impl Base {
    // The numbers of this base without a step.
    fn plain(self, field: Field) -> Numbers
        requires { IsBaseWithin field self }
        ensures { IsKept field (plain field (base_view self)) result }
    {
        let (least, most) = (field.least(), greatest(field));
        let (first, last, star) = match self {
            Base::All => (least, most, true),
            Base::Single(number) => (number, number, false),
            Base::Range(first, last) => (first, last, false),
        };
        let bits = bits_of(least, first, last, 1);
        Numbers { bits, star }
    }

    // The numbers of this base with the step `every`. A lone number goes on to the greatest.
    fn by_step(self, field: Field, every: u64) -> Numbers
        requires base { IsBaseWithin field self }
        requires every { 0 < every }
        ensures { IsKept field (by_step field (base_view self) every) result }
    {
        let (least, most) = (field.least(), greatest(field));
        let (first, last, star) = match self {
            Base::All => (least, most, every == 1),
            Base::Single(number) => (number, most, false),
            Base::Range(first, last) => (first, last, false),
        };
        let bits = bits_of(least, first, last, within_all(every));
        Numbers { bits, star }
    }
}

/// Reads an item of a field.
pub(crate) fn read_item<'a>(field: Field, text: &'a str) -> Result<Numbers, Reason<'a>>
    ensures { MatchResult result
        (IsItemRead field text.now) (λ r. item_of field text.now ≡ Err (reason_view r)) }
{
    let (front, behind) = cut_at(text, b'/');
    let base = read_base(field, front)?;
    let Some(rest) = behind else {
        return Ok(base.plain(field));
    };
    let (step, more) = cut_at(rest, b'/');
    if let Some(_) = more {
        return Err(Reason::SecondStep);
    }
    let every = read_step(step)?;
    Ok(base.by_step(field, every))
}
