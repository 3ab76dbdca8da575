//! Why a line is refused. A refusal borrows words of the line, and its `Display` is the message.

ghost use Rattle.std.specs.Prelude.{Some};
ghost use Rattle.cron_tab_lines.specs.Refusals.{refusal_text};
ghost use Rattle.cron_tab_lines.specs.Views.{refusal_view};

use cron_crontab::Fault;
use std::error::Error;
use std::fmt;

/// Why a line is refused.
#[derive(Clone, Copy, Debug, PartialEq, Eq)]
pub enum Refusal<'a> {
    /// The line has a NUL byte.
    Nul,
    /// The file begins with a byte order mark.
    ByteOrderMark,
    /// The line has a line feed before its last byte.
    SecondLine,
    /// After its leading spaces and tabs, the line is only a carriage return.
    LoneReturn,
    /// A setting has no value: at most white space follows its `=`.
    NoValue,
    /// A value begins with a quotation mark that isn't closed.
    OpenQuote,
    /// Something other than white space follows a quoted value.
    BehindQuote,
    /// The fields have a byte that is neither printable ASCII nor a tab.
    StrangeByte,
    /// The fields, or the nickname, are refused.
    Expression(Fault<'a>),
    /// The text after the fields or the nickname begins with a star.
    SixthField,
    /// Nothing follows the fields of an entry in a system crontab.
    NoUser,
    /// The command is missing.
    NoCommand,
}

impl<'a> fmt::Display for Refusal<'a> {
    ghost use Rattle.std.specs.Prelude.{Some};
    ghost use Rattle.cron_tab_lines.specs.Refusals.{refusal_text};
    ghost use Rattle.cron_tab_lines.specs.Views.{refusal_view};

    ghost output = { λ r. Some (refusal_text (refusal_view r)) };

    fn fmt<W: fmt::Write>(&self, f: &mut fmt::Formatter<W>) -> fmt::Result {
        match self {
            Refusal::Nul => write!(f, "the line has a NUL"),
            Refusal::ByteOrderMark => {
                write!(f, "a byte order mark stands at the front of the file")
            }
            Refusal::SecondLine => {
                write!(
                    f,
                    "a line feed stands within the line: each line is read by itself"
                )
            }
            Refusal::LoneReturn => write!(f, "the line is a carriage return alone"),
            Refusal::NoValue => {
                write!(
                    f,
                    "no value stands behind the =; an empty one is written \"\""
                )
            }
            Refusal::OpenQuote => {
                write!(f, "the quotation mark in front of the value is not closed")
            }
            Refusal::BehindQuote => {
                write!(f, "something stands behind the closing quotation mark")
            }
            Refusal::StrangeByte => {
                write!(f, "the fields have a byte that is no printable ASCII")
            }
            Refusal::Expression(fault) => write!(f, "{fault}"),
            Refusal::SixthField => write!(
                f,
                "a * stands behind the fields: an expression has five, none of seconds and none of years"
            ),
            Refusal::NoUser => write!(f, "no user stands behind the fields"),
            Refusal::NoCommand => write!(f, "no command stands behind the fields"),
        }
    }
}

impl<'a> Error for Refusal<'a> {}
