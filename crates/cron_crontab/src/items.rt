//! Items of a field: numbers, ranges and stars, and their steps.

ghost use Rattle.std.specs.Prelude.{◌≡◌, ◌<◌, ◌≤◌, ◌+◌, ◌-◌, ◌^◌, ℕ, IfOk, IfSome, MatchResult, Ok, Err};
ghost use Rattle.cron_bits.specs.Words.{has_bit};
ghost use Rattle.cron_units.specs.Steps.{in_steps};
ghost use Rattle.cron_crontab.specs.Items.{base_of, begins_with_star, between, by_step, item_of, pieces};
ghost use Rattle.cron_crontab.specs.Views.{reason_view};
ghost use Rattle.cron_crontab.specs.Inner.Reading.{AreBits, IsBaseWithin, IsItemRead, base_view};

use crate::faults::Reason;
use crate::field::Field;
use crate::numbers::{lone_number, read_number, read_step};
use crate::words::cut_at;
use cron_bits::words::Words;

/// The part of an item before its step. A star is a range.
#[derive(Clone, Copy)]
pub(crate) enum Base {
    Single(u32),
    Range(u32, u32),
}

/// Returns true if `text` begins with a star.
#[inline(always)]
pub fn begins_with_star(text: &str) -> bool
    ensures { result ≡ begins_with_star text.now }
{
    match text.as_bytes().first() {
        Some(byte) => *byte == b'*',
        None => false,
    }
}

/// Reads one number, or two with a dash between them.
#[inline(always)]
fn read_range<'a>(field: Field, text: &'a str) -> Result<Base, Reason<'a>>
    ensures base { MatchResult result
        (λ b. between field (pieces 45 text.now) ≡ Ok (base_view b))
        (λ r. between field (pieces 45 text.now) ≡ Err (reason_view r)) }
    ensures within { IfOk result (IsBaseWithin field) }
{
    let (first, behind) = cut_at(text, b'-');
    let number = read_number(field, first)?;
    let Some(rest) = behind else {
        return Ok(Base::Single(number));
    };
    let (last, more) = cut_at(rest, b'-');
    let end = read_number(field, last)?;
    match more {
        None => Ok(Base::Range(number, end)),
        Some(_) => Err(Reason::Ignored(last)),
    }
}

/// Reads the part of an item before its step: a star, a number or a range.
#[inline(always)]
pub(crate) fn read_base<'a>(field: Field, text: &'a str) -> Result<Base, Reason<'a>>
    ensures base { MatchResult result
        (λ b. base_of field text.now ≡ Ok (base_view b))
        (λ r. base_of field text.now ≡ Err (reason_view r)) }
    ensures within { IfOk result (IsBaseWithin field) }
{
    if !begins_with_star(text) {
        return read_range(field, text);
    }
    if text.len() == 1 {
        Ok(Base::Range(field.least(), field.greatest()))
    } else {
        Err(Reason::Ignored("*"))
    }
}

/// The numbers from `first` to `last` by steps of `every`, as bits, where bit 0 is `least`.
#[inline(always)]
fn bits_of(least: u32, first: u32, last: u32, every: u32) -> u64
    requires first { least ≤ first }
    requires last { least ≤ last }
    requires room { last < least + 64 }
    requires every { 0 < every }
    ensures fit { result < 2 ^ 64 }
    ensures bits { (x : ℕ)
        → least ≤ x
        → has_bit result (x - least)
        ≡ in_steps (record { first = first; last = last; every = every }) x }
{
    u64::every_nth(first - least, every).below(last - least + 1)
}

/// The numbers of `base` by steps of `every`, as bits, where bit 0 is the field's least number. A
/// step that goes past the last number leaves only the first.
#[inline(always)]
pub(crate) fn numbers_of(field: Field, base: Base, every: u32) -> u64
    requires within { IsBaseWithin field base }
    requires every { 0 < every }
    ensures fit { result < 2 ^ 64 }
    ensures bits { AreBits field (in_steps (by_step (base_view base) every)) result }
{
    let (first, last) = match base {
        Base::Single(number) => (number, number),
        Base::Range(first, last) => (first, last),
    };
    bits_of(field.least(), first, last, every)
}

/// The bit of an item that is one number, where bit 0 is the field's least number. `None` if `text`
/// is no number of `field`.
#[inline(always)]
fn single_bits(field: Field, text: &str) -> Option<u64>
    ensures { IfSome result (λ bits. IsItemRead field text.now bits × (bits < 2 ^ 64)) }
{
    let number = lone_number(field, text)?;
    Some(numbers_of(field, Base::Single(number), 1))
}

/// Reads an item of a field that isn't one number, or returns why it is refused.
fn read_longer<'a>(field: Field, text: &'a str) -> Result<u64, Reason<'a>>
    ensures item { MatchResult result
        (IsItemRead field text.now) (λ r. item_of field text.now ≡ Err (reason_view r)) }
    ensures fit { IfOk result (λ bits. bits < 2 ^ 64) }
{
    let (front, behind) = cut_at(text, b'/');
    let base = read_base(field, front)?;
    let Some(rest) = behind else {
        return Ok(numbers_of(field, base, 1));
    };
    if let Base::Single(_) = base {
        return Err(Reason::LoneStep);
    }
    let (step, more) = cut_at(rest, b'/');
    let every = read_step(step)?;
    match more {
        None => Ok(numbers_of(field, base, every)),
        Some(_) => Err(Reason::Ignored(step)),
    }
}

/// Reads an item of a field, and returns its numbers as bits, where bit 0 is the field's least
/// number.
#[inline(always)]
pub(crate) fn read_item<'a>(field: Field, text: &'a str) -> Result<u64, Reason<'a>>
    ensures item { MatchResult result
        (IsItemRead field text.now) (λ r. item_of field text.now ≡ Err (reason_view r)) }
    ensures fit { IfOk result (λ bits. bits < 2 ^ 64) }
{
    match single_bits(field, text) {
        Some(bits) => Ok(bits),
        None => read_longer(field, text),
    }
}
