//! Items of a field as first number, last number and step, for callers that look at how a field is
//! written.

ghost use Rattle.std.specs.Prelude.{◌≡◌, ◌<◌, IfOk, MatchResult, Ok, Err};
ghost use Rattle.cron_crontab.specs.Items.{by_step, item_of};
ghost use Rattle.cron_crontab.specs.Views.{item_view, reason_view};
ghost use Rattle.cron_crontab.specs.Inner.Reading.{base_view};

use crate::faults::Reason;
use crate::field::Field;
use crate::items::{Base, read_base};
use crate::numbers::read_step;
use crate::words::cut_at;

/// An item of a field: the numbers from `first` to `last` by steps of `every`. There are none if
/// `first` is greater than `last`. For a lone number, both are that number.
#[derive(Clone, Copy, Debug, PartialEq, Eq)]
pub struct Item {
    pub first: u32,
    pub last: u32,
    pub every: u32,
}

fn by_step(base: Base, every: u32) -> Item
    ensures numbers { item_view result ≡ by_step (base_view base) every }
    ensures step { result.every ≡ every }
{
    match base {
        Base::Single(number) => Item {
            first: number,
            last: number,
            every,
        },
        Base::Range(first, last) => Item { first, last, every },
    }
}

/// Reads an item of a field, `5`, `1-5` or `*/15`, without the commas around it.
pub fn read_steps<'a>(field: Field, text: &'a str) -> Result<Item, Reason<'a>>
    ensures item { MatchResult result
        (λ i. item_of field text.now ≡ Ok (item_view i))
        (λ r. item_of field text.now ≡ Err (reason_view r)) }
    ensures positive { IfOk result (λ i. 0 < i.every) }
{
    let (front, behind) = cut_at(text, b'/');
    let base = read_base(field, front)?;
    let Some(rest) = behind else {
        return Ok(by_step(base, 1));
    };
    if let Base::Single(_) = base {
        return Err(Reason::LoneStep);
    }
    let (step, more) = cut_at(rest, b'/');
    let every = read_step(step)?;
    match more {
        None => Ok(by_step(base, every)),
        Some(_) => Err(Reason::Ignored(step)),
    }
}
