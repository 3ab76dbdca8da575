//! Reads one field from left to right, once, and adds its items to its set on the way. A token is a
//! number, a word or a sign. White space between a wildcard (`*` or `?`) and a connector ends the
//! field.
//!
//! The two parts of a place are written one by one. A copy of the whole place would move its
//! padding too, in pieces that overlap.

ghost use Rattle.std.specs.Prelude.{◌≡◌, ◌<◌, length, MatchOption, IfSome, OnErr, OnOk, Some, None, List, false};
ghost use Rattle.cron_units.specs.Views.{item_view};
ghost use Rattle.cron_text.specs.Fault.{TakesField};
ghost use Rattle.cron_text.specs.Inner.FieldReading.{joined, furthest};
ghost use Rattle.cron_text.specs.Fields.{is_connector, is_wildcard};
ghost use Rattle.cron_text.specs.Fields as field;
ghost use Rattle.cron_text.specs.Tokens.{sign_of, symbol_of};
ghost use Rattle.cron_text.specs.Tokens as spec;
ghost use Rattle.cron_text.specs.Inner.Places.{IsPlace, tokens_from, IsConnector, NoConnector, GrowsOn};
ghost use Rattle.cron_text.specs.Inner.Views.{symbol_view, connector_view, state_view, after_growth};
ghost use Rattle.cron_text.specs.Inner.Faults.{IsUnread, TellsItem};
ghost use Rattle.cron_units.specs.Denotation.{AddsItem};
ghost use Rattle.cron_units.specs.Units.{with_mark};

use super::faults::Fault;
use super::items::{lone_item, with_end, with_step};
use super::plain::read_plain;
use super::symbols::{Symbol, lone_star_at, token_at};
use super::tokens::{Place, skip_space};
use cron_units::specifier::{Base, Item, RefusedItem, add_item};
use cron_units::time_unit::{TimeUnitField, empty};

/// A sign between two tokens of a field.
#[derive(Clone, Copy)]
pub enum Connector {
    Comma,
    Dash,
    Slash,
}

#[inline(always)]
fn connector_of(byte: u8) -> Option<Connector>
    ensures { MatchOption result
        (is_connector (sign_of byte) ≡ false) (λ kept. connector_view kept ≡ sign_of byte) }
{
    match byte {
        b',' => Some(Connector::Comma),
        b'-' => Some(Connector::Dash),
        b'/' => Some(Connector::Slash),
        _ => None,
    }
}

/// Returns the connector at `place`, or `None` if there is none.
#[inline(always)]
pub fn connector_at(text: &[u8], place: Place) -> Option<Connector>
    requires { IsPlace text.now place }
    ensures connector { MatchOption result
        (NoConnector (tokens_from text.now place)) (IsConnector text.now place) }
    ensures within { IfSome result (λ _. place.at < length text.now) }
{
    if place.at >= text.len() {
        return None;
    }
    connector_of(text[place.at])
}

#[inline(always)]
fn is_wildcard(symbol: Symbol<'_>) -> bool
    ensures { result ≡ is_wildcard (symbol_view symbol.entry) }
{
    matches!(symbol, Symbol::Star | Symbol::Question)
}

/// The effect of a connector and a token on the item before them.
#[derive(Clone, Copy)]
pub enum Growth<'a> {
    /// The token belongs to the item, which now is this one.
    Grown(Item<'a>),
    /// The item is complete, and this item follows it.
    Next(Item<'a>),
}

#[inline(always)]
fn growth_by<'a, T: TimeUnitField>(
    item: Item<'a>,
    connector: Connector,
    symbol: Symbol<'a>,
) -> Option<Growth<'a>>
    ensures { (done : List field.Item) (last x : spec.Token)
        → symbol_view symbol.entry ≡ symbol_of x
        → MatchOption result
        (joined T.unit (state_view done item.entry last) (connector_view connector) x ≡ None)
        (λ g. joined T.unit (state_view done item.entry last) (connector_view connector) x
        ≡ Some (after_growth done item.entry x g)) }
{
    match connector {
        Connector::Comma => Some(Growth::Next(lone_item::<T>(symbol)?)),
        Connector::Dash => Some(Growth::Grown(with_end(item, symbol)?)),
        Connector::Slash => Some(Growth::Grown(with_step(item, symbol)?)),
    }
}

/// Reads the next connector and token of the field. Returns their effect on `item`, whether the
/// token is a wildcard (`*` or `?`), and the place after it. `None` if the field ends at `place`.
/// `wildcard` says whether the token before is one. White space between a wildcard and a connector,
/// on either side, ends the field before the connector.
#[inline(always)]
fn more_at<'a, T: TimeUnitField>(
    text: &'a str,
    place: Place,
    item: Item<'a>,
    wildcard: bool,
) -> Option<(Growth<'a>, bool, Place)>
    requires { IsPlace text.now place }
    ensures more { (done : List field.Item) (last : spec.Token)
        → is_wildcard (symbol_of last) ≡ wildcard
        → MatchOption result
        (furthest T.unit (state_view done item.entry last) (tokens_from text.now place)
        ≡ (state_view done item.entry last, tokens_from text.now place))
        (λ m. GrowsOn T.unit
        (state_view done item.entry last) (tokens_from text.now place)
        done item.entry m.0 m.1 (tokens_from text.now m.2)) }
    ensures place { IfSome result (λ m. IsPlace text.now m.2) }
    ensures further { IfSome result (λ m. place.at < m.2.at) }
{
    let bytes = text.as_bytes();
    let connector = connector_at(bytes, place)?;
    if wildcard && place.spaced {
        return None;
    }
    let (token, after) = token_at(text, skip_space(bytes, place.at + 1))?;
    let wildcard = is_wildcard(token.symbol);
    if wildcard && token.spaced {
        return None;
    }
    let growth = growth_by::<T>(item, connector, token.symbol)?;
    Some((growth, wildcard, after))
}

/// The error of a field that isn't read. Its fault is written to a parameter of the reader. As part
/// of the result, a fault would be copied through memory after each field, even after one without a
/// fault.
#[derive(Clone, Copy)]
pub struct Unread;

/// Adds what `item` denotes to `set`, the set of a field. If the item is refused, writes the fault
/// to `fault`.
#[inline(always)]
fn add_to<'a, T: TimeUnitField>(
    set: &mut T,
    item: Item<'a>,
    fault: &mut Fault<'a>,
) -> Result<(), Unread>
    ensures ok { OnOk result (AddsItem T.unit
        (item_view item.entry) (with_mark (T.members set.old) (T.marked set.old))
        (with_mark (T.members set.new) (T.marked set.new))) }
    ensures err { OnErr result (TellsItem T.unit (item_view item.entry) fault.new) }
{
    match add_item::<T>(set, item) {
        Ok(()) => Ok(()),
        Err(refusal) => {
            *fault = Fault::Refused(RefusedItem {
                definition: T::definition(),
                refusal,
            });
            Err(Unread)
        }
    }
}

/// Reads a field that is only a star into `set`, and returns the place after it. `None` if the
/// field isn't only a star. Most fields are such a star, and no token is made for it.
#[inline(always)]
fn read_star<T: TimeUnitField>(text: &str, place: Place, set: &mut T) -> Option<Place>
    requires { IsPlace text.now place }
    ensures taken { IfSome result (λ after. TakesField T.unit
        (tokens_from text.now place) (with_mark (T.members set.new) (T.marked set.new))
        (tokens_from text.now after)) }
    ensures place { IfSome result (IsPlace text.now) }
{
    let behind = lone_star_at(text.as_bytes(), place)?;
    let mut all: T = empty();
    match add_item::<T>(&mut all, Item::Plain(Base::Every)) {
        Ok(()) => {
            *set = all;
            Some(behind)
        }
        Err(_) => None,
    }
}

/// Reads the longest field at `place` item by item into `set`, and moves `place` to the place after
/// it. If the field is refused, writes the fault to `fault`. Few fields get here: `read_star` and
/// `read_plain` read most.
#[inline(never)]
fn read_items<'a, T: TimeUnitField>(
    text: &'a str,
    place: &mut Place,
    set: &mut T,
    fault: &mut Fault<'a>,
) -> Result<(), Unread>
    requires { IsPlace text.now place.old }
    ensures taken { OnOk result (TakesField T.unit
        (tokens_from text.now place.old) (with_mark (T.members set.new) (T.marked set.new))
        (tokens_from text.now place.new)) }
    ensures place { OnOk result (IsPlace text.now place.new) }
    ensures refused { OnErr result (IsUnread T.unit (tokens_from text.now place.old) fault.new) }
{
    let Some((first, after)) = token_at(text, *place) else {
        *fault = Fault::Syntax;
        return Err(Unread);
    };
    let Some(lone) = lone_item::<T>(first.symbol) else {
        *fault = Fault::Syntax;
        return Err(Unread);
    };
    let mut joined: T = empty();
    let mut item = lone;
    let mut wildcard = is_wildcard(first.symbol);
    let mut next = after;
    while let Some((growth, last, after)) = more_at::<T>(text, next, item, wildcard) {
        match growth {
            Growth::Grown(grown) => item = grown,
            Growth::Next(other) => {
                add_to(&mut joined, item, fault)?;
                item = other;
            }
        }
        wildcard = last;
        next = after;
    }
    add_to(&mut joined, item, fault)?;
    place.at = next.at;
    place.spaced = next.spaced;
    *set = joined;
    Ok(())
}

/// Reads the longest field at `place` into `set`, and moves `place` to the place after it. If the
/// field is refused, writes the fault to `fault`.
#[inline(always)]
pub fn read_field<'a, T: TimeUnitField>(
    text: &'a str,
    place: &mut Place,
    set: &mut T,
    fault: &mut Fault<'a>,
) -> Result<(), Unread>
    requires { IsPlace text.now place.old }
    ensures taken { OnOk result (TakesField T.unit
        (tokens_from text.now place.old) (with_mark (T.members set.new) (T.marked set.new))
        (tokens_from text.now place.new)) }
    ensures place { OnOk result (IsPlace text.now place.new) }
    ensures refused { OnErr result (IsUnread T.unit (tokens_from text.now place.old) fault.new) }
{
    let read = match read_star(text, *place, set) {
        Some(behind) => Some(behind),
        None => read_plain(text.as_bytes(), *place, set),
    };
    if let Some(behind) = read {
        place.at = behind.at;
        place.spaced = behind.spaced;
        return Ok(());
    }
    read_items(text, place, set, fault)
}
