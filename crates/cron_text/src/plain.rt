//! Reads fields as most are written: numbers, names, ranges and steps with commas between them, and
//! white space only at the end. The items are added to a set as they are read. Any other field, and
//! a field that is refused, is left to the reader of tokens.

ghost use Rattle.std.specs.Prelude.{◌≡◌, ◌<◌, ℕ, IfSome, IsTrue, length, slice_index};
ghost use Rattle.cron_units.specs.Units.{TimeUnit, with_mark};
ghost use Rattle.cron_units.specs.Items as items;
ghost use Rattle.cron_units.specs.Views.{base_view, item_view};
ghost use Rattle.cron_text.specs.Fault.{TakesField};
ghost use Rattle.cron_text.specs.Tokens.{number};
ghost use Rattle.cron_text.specs.Inner.Places.{IsPlace, tokens_from};
ghost use Rattle.cron_text.specs.Inner.PlainReading.{IsAddedAt, IsBehind, IsItemAt, IsSymbolAt, IsWordAt};

use super::field_texts::connector_at;
use super::symbols::digits_at;
use super::tokens::{Place, is_digit, is_letter, skip_space};
use cron_units::specifier::{Base, Item, add_item, add_name, add_names};
use cron_units::time_unit::{Key, TimeUnitField, empty, with_letter};

/// The number at the index `at`, and where it ends. `None` if there is no digit, or if 32 bits
/// don't hold the number.
#[inline(always)]
fn number_from(text: &[u8], at: usize) -> Option<(u32, usize)>
    ensures { IfSome result (λ r. IsSymbolAt text.now at (number r.0) r.1) }
{
    if at >= text.len() {
        return None;
    }
    if !is_digit(text[at]) {
        return None;
    }
    let (value, end) = digits_at(text, at);
    match u32::try_from(value) {
        Ok(value) => Some((value, end)),
        Err(_) => None,
    }
}

/// Returns true if `byte` is at the index `at`.
#[inline(always)]
fn stands(text: &[u8], at: usize, byte: u8) -> bool
    ensures { IsTrue result → (at < length text.now) × (slice_index text.now at ≡ byte) }
{
    at < text.len() && text[at] == byte
}

/// The number after `byte` at the index `at`, and where the number ends. `None` if `byte` or the
/// number isn't there.
#[inline(always)]
fn number_behind(text: &[u8], at: usize, byte: u8) -> Option<(u32, usize)>
    ensures { IfSome result (λ r. IsBehind text.now at byte (number r.0) r.1) }
{
    if !stands(text, at, byte) {
        return None;
    }
    number_from(text, at + 1)
}

/// The item of `base` with the step that follows at `end`, if there is one, and where the item
/// ends.
#[inline(always)]
fn item_of(text: &[u8], base: Base<'static>, end: usize) -> (Item<'static>, usize)
    ensures { (u : TimeUnit) (at : ℕ)
        → IsItemAt u text.now at (items.plain (base_view base.entry)) end
        → IsItemAt u text.now at (item_view result.0) result.1 }
{
    match number_behind(text, end, b'/') {
        Some((step, end)) => (Item::Stepped(base, step), end),
        None => (Item::Plain(base), end),
    }
}

/// The item at the index `at` that begins with a number, and where it ends. `None` if it doesn't
/// begin with a number.
#[inline(always)]
fn numbers_at(text: &[u8], at: usize) -> Option<(Item<'static>, usize)>
    ensures { IfSome result (λ r. (u : TimeUnit) → IsItemAt u text.now at (item_view r.0) r.1) }
{
    let (first, end) = number_from(text, at)?;
    match number_behind(text, end, b'-') {
        Some((last, end)) => Some(item_of(text, Base::NumberRange(first, last), end)),
        None => Some(item_of(text, Base::Single(first), end)),
    }
}

/// The item at the index `at` that is a star with a step, and where it ends. `None` for a star
/// without a step, and for anything else.
#[inline(always)]
fn star_at(text: &[u8], at: usize) -> Option<(Item<'static>, usize)>
    ensures { IfSome result (λ r. (u : TimeUnit) → IsItemAt u text.now at (item_view r.0) r.1) }
{
    if !stands(text, at, b'*') {
        return None;
    }
    let (step, end) = number_behind(text, at + 1, b'/')?;
    Some((Item::Stepped(Base::Every, step), end))
}

/// The key of the word at the index `at`, and where the word ends. `None` if there is no letter.
#[inline(always)]
fn word_from(text: &[u8], at: usize) -> Option<(Key, usize)>
    ensures { IfSome result (λ r. IsWordAt text.now at r.0 r.1) }
{
    if at >= text.len() {
        return None;
    }
    if !is_letter(text[at]) {
        return None;
    }
    let mut key = with_letter(0, text[at]);
    for end in at + 1..text.len() {
        if !is_letter(text[end]) {
            return Some((key, end));
        }
        key = with_letter(key, text[end]);
    }
    Some((key, text.len()))
}

/// Adds what the name or the range of names at the index `at` denotes to `set`, and returns where
/// it ends. `None`, with `set` unchanged, if there is no name or it is refused.
#[inline(always)]
fn add_words<T: TimeUnitField>(text: &[u8], at: usize, set: &mut T) -> Option<usize>
    ensures { IfSome result (λ end. IsAddedAt T.unit text.now at end
        (with_mark (T.members set.old) (T.marked set.old))
        (with_mark (T.members set.new) (T.marked set.new))) }
{
    let (first, end) = word_from(text, at)?;
    if !stands(text, end, b'-') {
        return if add_name(set, first) {
            Some(end)
        } else {
            None
        };
    }
    let (last, end) = word_from(text, end + 1)?;
    if add_names(set, first, last) {
        Some(end)
    } else {
        None
    }
}

/// Adds what the item at the index `at` denotes to `set`, and returns where it ends. `None`, with
/// `set` unchanged, if nothing is there that this module reads, or if it is refused.
#[inline(always)]
fn add_plain<T: TimeUnitField>(text: &[u8], at: usize, set: &mut T) -> Option<usize>
    ensures { IfSome result (λ end. IsAddedAt T.unit text.now at end
        (with_mark (T.members set.old) (T.marked set.old))
        (with_mark (T.members set.new) (T.marked set.new))) }
{
    let found = match numbers_at(text, at) {
        Some(found) => Some(found),
        None => star_at(text, at),
    };
    match found {
        Some((item, end)) => match add_item::<T>(set, item) {
            Ok(()) => Some(end),
            Err(_) => None,
        },
        None => add_words(text, at, set),
    }
}

/// Reads a field of numbers, names, ranges and steps with commas between them into `set`, and
/// returns the place after it. `None`, with `set` unchanged, if the field has anything else or is
/// refused.
#[inline(always)]
pub fn read_plain<T: TimeUnitField>(text: &[u8], place: Place, set: &mut T) -> Option<Place>
    ensures taken { IfSome result (λ after. TakesField T.unit
        (tokens_from text.now place) (with_mark (T.members set.new) (T.marked set.new))
        (tokens_from text.now after)) }
    ensures place { IfSome result (IsPlace text.now) }
{
    let mut joined: T = empty();
    let mut end = add_plain(text, place.at, &mut joined)?;
    while stands(text, end, b',') {
        end = add_plain(text, end + 1, &mut joined)?;
    }
    let after = skip_space(text, end);
    if connector_at(text, after).is_some() {
        return None;
    }
    *set = joined;
    Some(after)
}
