//! Why a text is refused. A fault borrows words of the text, and its `Display` is the message.

ghost use Rattle.std.specs.Prelude.{◌≡◌, ◌++◌, codes, Some};
ghost use Rattle.cron_kubernetes.specs.Refusals.{fault_text, greatest, reason_text, sunday};
ghost use Rattle.cron_kubernetes.specs.Views.{fault_view, reason_view};
ghost use Rattle.cron_crontab.specs.Refusals.{no_number_text};

use cron_crontab::Field;
use std::error::Error;
use std::fmt;

/// Why an item of a field is refused.
#[derive(Clone, Copy, Debug, PartialEq, Eq)]
pub enum Reason<'a> {
    /// A number is missing where one is wanted.
    Missing,
    /// This text is neither a number nor a name of the field.
    NoNumber(&'a str),
    /// This number is 2^63 at least.
    TooLarge(&'a str),
    /// This number is less than 0.
    Negative(&'a str),
    /// The number isn't one of the field's.
    Outside(u64),
    /// The first number of a range, and the second, which is less.
    Backward(u32, u32),
    /// A range has a third part.
    SecondDash,
    /// A second step follows a step.
    SecondStep,
    /// The step is 0.
    ZeroStep,
}

/// An item of a field, and why it is refused.
#[derive(Clone, Copy, Debug, PartialEq, Eq)]
pub struct RefusedItem<'a> {
    pub field: Field,
    pub item: &'a str,
    pub reason: Reason<'a>,
}

/// Why a text is refused.
#[derive(Clone, Copy, Debug, PartialEq, Eq)]
pub enum Fault<'a> {
    /// An item is refused.
    Refused(RefusedItem<'a>),
    /// There are fewer than five fields, and this is the first that is missing.
    NoField(Field),
    /// This word follows the fifth field.
    SixthField(&'a str),
    /// The first word names a zone, by `TZ=` or `CRON_TZ=`.
    Zone(&'a str),
    /// The text begins with `@` and is no descriptor.
    NoDescriptor(&'a str),
    /// This text follows `@every` and is no duration.
    NoDuration(&'a str),
}

/// The greatest number of a field; Sunday is 0 alone.
pub(crate) fn greatest(field: Field) -> u32
    ensures { result ≡ greatest field }
{
    match field {
        Field::DayOfWeek => 6,
        _ => field.greatest(),
    }
}

// What a message says of the names that `field` takes.
fn names_hint(field: Field) -> &'static str
    ensures { result.now ≡ no_number_text field }
{
    match field {
        Field::Month => "' is no number and no name of a month in three letters",
        Field::DayOfWeek => "' is no number and no name of a day in three letters",
        _ => "' is no number",
    }
}

// What a message adds about a day 7.
fn sunday_hint(field: Field, number: u64) -> &'static str
    ensures { result.now ≡ sunday field number }
{
    match field {
        Field::DayOfWeek => { if number == 7 { ", and Sunday is 0" } else { "" } }
        _ => "",
    }
}

// The message of `reason`, which names the numbers and the kind of name that `field` takes.
#[derive(Clone, Copy)]
struct ReasonWords<'a> {
    field: Field,
    reason: Reason<'a>,
}

impl<'a> fmt::Display for ReasonWords<'a> {
    ghost use Rattle.std.specs.Prelude.{Some};
    ghost use Rattle.cron_kubernetes.specs.Refusals.{reason_text};
    ghost use Rattle.cron_kubernetes.specs.Views.{reason_view};

    ghost output = { λ t. Some (reason_text t.field (reason_view t.reason)) };

    fn fmt<W: fmt::Write>(&self, f: &mut fmt::Formatter<W>) -> fmt::Result {
        match self.reason {
            Reason::Missing => write!(f, "a number is missing"),
            Reason::NoNumber(text) => {
                let hint = names_hint(self.field);
                write!(f, "'{text}{hint}")
            }
            Reason::TooLarge(text) => write!(f, "'{text}' is too large a number"),
            Reason::Negative(text) => write!(f, "'{text}' is less than 0"),
            Reason::Outside(number) => {
                let (least, greatest) = (self.field.least(), greatest(self.field));
                let hint = sunday_hint(self.field, number);
                write!(f, "{number} is not one of {least} to {greatest}{hint}")
            }
            Reason::Backward(first, last) => {
                write!(f, "the range from {first} to {last} is the wrong way round")
            }
            Reason::SecondDash => write!(f, "a range has two numbers"),
            Reason::SecondStep => write!(f, "an item has one step"),
            Reason::ZeroStep => write!(f, "a step is 1 at least"),
        }
    }
}

impl<'a> fmt::Display for Fault<'a> {
    ghost use Rattle.std.specs.Prelude.{Some};
    ghost use Rattle.cron_kubernetes.specs.Refusals.{fault_text};
    ghost use Rattle.cron_kubernetes.specs.Views.{fault_view};

    ghost output = { λ f. Some (fault_text (fault_view f)) };

    fn fmt<W: fmt::Write>(&self, f: &mut fmt::Formatter<W>) -> fmt::Result {
        match self {
            Fault::Refused(
                RefusedItem {
                    field,
                    item,
                    reason,
                },
            ) => {
                let title = field.title();
                let told = ReasonWords {
                    field: *field,
                    reason: *reason,
                };
                write!(f, "{title}: '{item}': {told}")
            }
            Fault::NoField(field) => {
                let title = field.title();
                write!(
                    f,
                    "{title}: a schedule has five fields, and this one is missing"
                )
            }
            Fault::SixthField(word) => write!(
                f,
                "'{word}' is a sixth field: a schedule has five, none of seconds and none of years"
            ),
            Fault::Zone(word) => write!(
                f,
                "'{word}': the zone of a CronJob stands at its key timeZone, and not in the schedule"
            ),
            Fault::NoDescriptor(text) => write!(
                f,
                "'{text}' is none of @yearly, @annually, @monthly, @weekly, @daily, @midnight, @hourly and @every with a duration"
            ),
            Fault::NoDuration(text) => { write!(f, "'{text}' is no duration such as 90m or 1h30m") }
        }
    }
}

impl<'a> Error for Fault<'a> {}
