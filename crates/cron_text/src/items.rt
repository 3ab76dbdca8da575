//! The items that tokens make: one token by itself, a range of two, or a base with a step.

ghost use Rattle.std.specs.Prelude.{◌≡◌};
ghost use Rattle.std.specs.Option.{option_map};
ghost use Rattle.cron_units.specs.Views.{item_view};
ghost use Rattle.cron_text.specs.Inner.Views.{symbol_view};
ghost use Rattle.cron_text.specs.Inner.FieldReading.{lone_item, with_end, with_step};

use super::symbols::Symbol;
use cron_units::specifier::{Base, Item};
use cron_units::time_unit::TimeUnitField;

/// The item that the token `symbol` is by itself, or `None` if it is none.
#[inline(always)]
pub fn lone_item<'a, T: TimeUnitField>(symbol: Symbol<'a>) -> Option<Item<'a>>
    ensures { option_map item_view result ≡ lone_item T.unit (symbol_view symbol.entry) }
{
    match symbol {
        Symbol::Star => Some(Item::Plain(Base::Every)),
        Symbol::Question if T::takes_question_mark() => Some(Item::Plain(Base::QuestionMark)),
        Symbol::Number(value) => Some(Item::Plain(Base::Single(value))),
        Symbol::Word(word) => Some(Item::Name(word)),
        _ => None,
    }
}

/// The range from `item` to `end`. `None` if they aren't two numbers or two names.
#[inline(always)]
pub fn with_end<'a>(item: Item<'a>, end: Symbol<'a>) -> Option<Item<'a>>
    ensures { option_map item_view result
        ≡ with_end (item_view item.entry) (symbol_view end.entry) }
{
    match (item, end) {
        (Item::Plain(Base::Single(first)), Symbol::Number(last)) => {
            Some(Item::Plain(Base::NumberRange(first, last)))
        }
        (Item::Name(first), Symbol::Word(last)) => Some(Item::Plain(Base::NameRange(first, last))),
        _ => None,
    }
}

/// `item` with `step`. `None` if `item` can't have a step or `step` is no number.
#[inline(always)]
pub fn with_step<'a>(item: Item<'a>, step: Symbol<'a>) -> Option<Item<'a>>
    ensures { option_map item_view result
        ≡ with_step (item_view item.entry) (symbol_view step.entry) }
{
    match (item, step) {
        (Item::Plain(base), Symbol::Number(step)) => Some(Item::Stepped(base, step)),
        _ => None,
    }
}
