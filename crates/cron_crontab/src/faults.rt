//! Why a text is refused. A fault borrows words of the text, and its `Display` is the message.

ghost use Rattle.std.specs.Prelude.{◌≡◌, Some};
ghost use Rattle.cron_crontab.specs.Refusals.{fault_text, reason_text};
ghost use Rattle.cron_crontab.specs.Views.{fault_view, reason_view};

use crate::field::Field;
use std::error::Error;
use std::fmt;

/// Why an item of a field is refused.
#[derive(Clone, Copy, Debug, PartialEq, Eq)]
pub enum Reason<'a> {
    /// A number or an item is missing where one is wanted.
    Missing,
    /// This text is neither a number of the field nor a name.
    NoNumber(&'a str),
    /// A number has more than nine digits.
    LongNumber,
    /// The number isn't one of the field's.
    Outside(u32),
    /// Something follows this text in the item. Debian's cron ignores it, and cronie refuses the
    /// item.
    Ignored(&'a str),
    /// A step follows a lone number.
    LoneStep,
    /// The step is no number.
    NoStep(&'a str),
    /// The step is 0.
    ZeroStep,
}

/// An item of a field, and why it is refused.
#[derive(Clone, Copy, Debug, PartialEq, Eq)]
pub struct RefusedItem<'a> {
    pub field: Field,
    pub item: &'a str,
    pub reason: Reason<'a>,
}

/// Why a text is refused.
#[derive(Clone, Copy, Debug, PartialEq, Eq)]
pub enum Fault<'a> {
    /// An item is refused.
    Refused(RefusedItem<'a>),
    /// There are fewer than five fields, and this is the first that is missing.
    NoField(Field),
    /// This word follows the fifth field.
    SixthField(&'a str),
    /// The word begins with `@` and is no nickname.
    NoNickname(&'a str),
    /// The word is a nickname with capital letters.
    CapitalNickname(&'a str),
    /// This word follows a nickname.
    BehindNickname(&'a str),
    /// This is the first word after a line feed or a carriage return.
    SecondLine(&'a str),
}

// The message of `reason`, which names the numbers and the kind of name that `field` takes.
#[derive(Clone, Copy)]
struct ReasonWords<'a> {
    field: Field,
    reason: Reason<'a>,
}

impl<'a> fmt::Display for ReasonWords<'a> {
    ghost use Rattle.std.specs.Prelude.{Some};
    ghost use Rattle.cron_crontab.specs.Refusals.{reason_text};
    ghost use Rattle.cron_crontab.specs.Views.{reason_view};

    ghost output = { λ t. Some (reason_text t.field (reason_view t.reason)) };

    fn fmt<W: fmt::Write>(&self, f: &mut fmt::Formatter<W>) -> fmt::Result {
        match self.reason {
            Reason::Missing => write!(f, "a number is missing"),
            Reason::NoNumber(text) => match self.field {
                Field::Month => {
                    write!(
                        f,
                        "'{text}' is no number and no name of a month in three letters"
                    )
                }
                Field::DayOfWeek => {
                    write!(
                        f,
                        "'{text}' is no number and no name of a day in three letters"
                    )
                }
                _ => write!(f, "'{text}' is no number"),
            },
            Reason::LongNumber => write!(f, "a number has nine digits at most"),
            Reason::Outside(number) => {
                let (least, greatest) = (self.field.least(), self.field.greatest());
                write!(f, "{number} is not one of {least} to {greatest}")
            }
            Reason::Ignored(text) => write!(f, "cron ignores what follows the {text}"),
            Reason::LoneStep => write!(f, "a step stands only behind a star or a range"),
            Reason::NoStep(text) => write!(f, "the step '{text}' is no number"),
            Reason::ZeroStep => write!(f, "a step is 1 at least"),
        }
    }
}

impl<'a> fmt::Display for Fault<'a> {
    ghost use Rattle.std.specs.Prelude.{Some};
    ghost use Rattle.cron_crontab.specs.Refusals.{fault_text};
    ghost use Rattle.cron_crontab.specs.Views.{fault_view};

    ghost output = { λ f. Some (fault_text (fault_view f)) };

    fn fmt<W: fmt::Write>(&self, f: &mut fmt::Formatter<W>) -> fmt::Result {
        match self {
            Fault::Refused(
                RefusedItem {
                    field,
                    item,
                    reason,
                },
            ) => {
                let title = field.title();
                let told = ReasonWords {
                    field: *field,
                    reason: *reason,
                };
                write!(f, "{title}: '{item}': {told}")
            }
            Fault::NoField(field) => {
                let title = field.title();
                write!(
                    f,
                    "{title}: an expression has five fields, and this one is missing"
                )
            }
            Fault::SixthField(word) => write!(
                f,
                "'{word}' is a sixth field: an expression has five, none of seconds and none of years"
            ),
            Fault::NoNickname(word) => write!(f, "'{word}' is no nickname"),
            Fault::CapitalNickname(word) => {
                write!(f, "'{word}': nicknames are written in small letters")
            }
            Fault::BehindNickname(word) => write!(f, "'{word}' stands behind a nickname"),
            Fault::SecondLine(word) => write!(
                f,
                "'{word}' stands behind a line break: an expression is one line"
            ),
        }
    }
}

impl<'a> Error for Fault<'a> {}
