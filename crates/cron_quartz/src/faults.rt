//! Why a text is refused. A fault borrows words of the text, and its `Display` is the message.

ghost use Rattle.std.specs.Prelude.{◌≡◌, Some};
ghost use Rattle.cron_quartz.specs.Refusals.{fault_text, reason_text};
ghost use Rattle.cron_quartz.specs.Views.{fault_view, reason_view};

use crate::field::Field;
use std::error::Error;
use std::fmt;

/// Why an item of a field is refused.
#[derive(Clone, Copy, Debug, PartialEq, Eq)]
pub enum Reason<'a> {
    /// A number or an item is missing where one is wanted.
    Missing,
    /// This text is neither a number nor a name of the field.
    NoNumber(&'a str),
    /// A number has more than nine digits.
    LongNumber,
    /// The first number is less than the second or greater than the third.
    Outside(u32, u32, u32),
    /// The step, which is the first number, is 0 or greater than the second number.
    OutsideStep(u32, u32),
    /// Something follows this text that Quartz ignores.
    Ignored(&'a str),
    /// A step follows a name. Quartz ignores such a step.
    NamedStep,
    /// A range has a name and a number.
    Mixed,
    /// The first year of a range is greater than the last.
    Backward,
    /// The word begins with `L`, and is none of `L`, `L-3`, `LW` and `L-3W`.
    NoForm,
}

/// An item of a field, or the whole field, and why it is refused.
#[derive(Clone, Copy, Debug, PartialEq, Eq)]
pub struct RefusedItem<'a> {
    pub field: Field,
    pub item: &'a str,
    pub reason: Reason<'a>,
}

/// Why a text is refused.
#[derive(Clone, Copy, Debug, PartialEq, Eq)]
pub enum Fault<'a> {
    /// An item is refused.
    Refused(RefusedItem<'a>),
    /// There are fewer than six fields, and this is the first that is missing.
    NoField(Field),
    /// This word follows the seventh field.
    EighthField(&'a str),
    /// Both fields of days are `?`.
    NoDays,
    /// Neither field of days is `?`.
    BothDays,
}

impl<'a> fmt::Display for Reason<'a> {
    ghost use Rattle.std.specs.Prelude.{Some};
    ghost use Rattle.cron_quartz.specs.Refusals.{reason_text};
    ghost use Rattle.cron_quartz.specs.Views.{reason_view};

    ghost output = { λ r. Some (reason_text (reason_view r)) };

    fn fmt<W: fmt::Write>(&self, f: &mut fmt::Formatter<W>) -> fmt::Result {
        match self {
            Reason::Missing => write!(f, "a number is missing"),
            Reason::NoNumber(text) => {
                write!(f, "'{text}' is no number and no name of three letters")
            }
            Reason::LongNumber => write!(f, "a number has nine digits at most"),
            Reason::Outside(number, low, high) => {
                write!(f, "{number} is not one of {low} to {high}")
            }
            Reason::OutsideStep(step, high) => {
                write!(f, "the step {step} is not one of 1 to {high}")
            }
            Reason::Ignored(text) => write!(f, "Quartz ignores what follows the {text}"),
            Reason::NamedStep => write!(f, "Quartz ignores a step behind a name"),
            Reason::Mixed => write!(f, "a range is of two numbers or of two names"),
            Reason::Backward => write!(f, "years are in ascending order"),
            Reason::NoForm => write!(f, "it is none of L, L-3, LW and L-3W"),
        }
    }
}

impl<'a> fmt::Display for Fault<'a> {
    ghost use Rattle.std.specs.Prelude.{Some};
    ghost use Rattle.cron_quartz.specs.Refusals.{fault_text};
    ghost use Rattle.cron_quartz.specs.Views.{fault_view};

    ghost output = { λ f. Some (fault_text (fault_view f)) };

    fn fmt<W: fmt::Write>(&self, f: &mut fmt::Formatter<W>) -> fmt::Result {
        match self {
            Fault::Refused(
                RefusedItem {
                    field,
                    item,
                    reason,
                },
            ) => {
                let title = field.title();
                write!(f, "{title}: '{item}': {reason}")
            }
            Fault::NoField(field) => {
                let title = field.title();
                write!(
                    f,
                    "{title}: an expression has six fields or seven, and this one is missing"
                )
            }
            Fault::EighthField(word) => write!(
                f,
                "'{word}' is an eighth field: an expression has seven at most"
            ),
            Fault::NoDays => { write!(f, "both kinds of day are '?', and one of them must not be") }
            Fault::BothDays => write!(f, "one of the two kinds of day must be '?'"),
        }
    }
}

impl<'a> Error for Fault<'a> {}
