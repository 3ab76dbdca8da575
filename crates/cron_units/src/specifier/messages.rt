//! The messages about refused items.

ghost use Rattle.std.specs.Prelude.{◌≡◌, Some};
ghost use Rattle.std.specs.Fmt.{DisplaysOnOk};
ghost use Rattle.cron_units.specs.Refusals.{message, unknown_name};
ghost use Rattle.cron_units.specs.Tables.{definition_view};
ghost use Rattle.cron_units.specs.Texts.{Tells};
ghost use Rattle.cron_units.specs.Views.{refusal_view};

use super::Refusal;
use crate::error::{Error, ErrorKind};
use crate::time_unit::{Definition, Names};
use std::alloc::Global;
use std::fmt;

/// A refusal, with the unit whose item is refused. Its `Display` is the message.
#[derive(Clone, Copy)]
pub struct RefusedItem<'a> {
    pub definition: Definition,
    pub refusal: Refusal<'a>,
}

// Writes that `name` is no name of the unit, or that the unit has no names.
fn write_unknown<W: fmt::Write>(
    f: &mut fmt::Formatter<W>,
    unit: Definition,
    name: &str,
) -> fmt::Result
    ensures { DisplaysOnOk W.write_str_gives f.old result
        (Some (message (definition_view unit) (unknown_name name.now)))
        f.new }
{
    match unit.names {
        None => {
            let title = unit.title;
            write!(
                f,
                "The '{title}' field does not support using names. '{name}' specified."
            )
        }
        Some(Names { noun, .. }) => write!(f, "'{name}' is not a valid {noun}."),
    }
}

impl<'a> fmt::Display for RefusedItem<'a> {
    ghost use Rattle.std.specs.Prelude.{Some};
    ghost use Rattle.cron_units.specs.Refusals.{message};
    ghost use Rattle.cron_units.specs.Tables.{definition_view};
    ghost use Rattle.cron_units.specs.Views.{refusal_view};

    ghost output = { λ r. Some (message (definition_view r.definition) (refusal_view r.refusal)) };

    fn fmt<W: fmt::Write>(&self, f: &mut fmt::Formatter<W>) -> fmt::Result {
        let unit = self.definition;
        let (title, least, greatest) = (unit.title, unit.least, unit.greatest);
        match self.refusal {
            Refusal::UnknownName(name) => write_unknown(f, unit, name),
            Refusal::TooSmall(n) => {
                write!(
                    f,
                    "{title} must be greater than or equal to {least}. ('{n}' specified.)"
                )
            }
            Refusal::TooLarge(n) => {
                write!(
                    f,
                    "{title} must be less than {greatest}. ('{n}' specified.)"
                )
            }
            Refusal::BadRange(first, last) => {
                write!(f, "Invalid range for {title}: {first}-{last}")
            }
            Refusal::BadNameRange(first, last) => {
                write!(f, "Invalid named range for {title}: {first}-{last}")
            }
            Refusal::ZeroStep => write!(f, "range step cannot be zero"),
            Refusal::LargeStep(step) => {
                write!(
                    f,
                    "{title} must be between 1 and {greatest}. ('{step}' specified.)"
                )
            }
        }
    }
}

/// Makes the error whose text is the message of the refusal. If memory runs out it is
/// `OutOfMemory`.
pub fn item_error(alloc: Global, item: RefusedItem<'_>) -> Error
    ensures { Tells
        (λ text. text
        ≡ message (definition_view item.entry.definition) (refusal_view item.entry.refusal))
        result }
{
    match format!(in alloc; "{item}") {
        Ok(text) => Error::from(ErrorKind::Expression(text)),
        Err(refused) => Error::from(refused),
    }
}

/// Makes the error whose text is `text`. If memory runs out it is `OutOfMemory`.
pub fn text_error(alloc: Global, text: &str) -> Error
    ensures { Tells (λ shown. shown ≡ text.now) result }
{
    match String::from_str(alloc, text) {
        Ok(text) => Error::from(ErrorKind::Expression(text)),
        Err(refused) => Error::from(refused),
    }
}
