//! Why a text is no expression.

ghost use Rattle.std.specs.Prelude.{◌≡◌, Some};
ghost use Rattle.cron_answers.specs.Refusals.{refusal_text};

use std::error::Error;
use std::fmt;

/// Why a text is no expression. It borrows words of the text, and prints the message.
#[derive(Clone, Copy)]
pub enum Refusal<'a> {
    /// The fault of a crontab's expression.
    Crontab(cron_crontab::Fault<'a>),
    /// The fault of an expression of this library.
    Own(cron_text::Fault<'a>),
    /// The fault of an expression of Quartz.
    Quartz(cron_quartz::Fault<'a>),
}

impl<'a> fmt::Display for Refusal<'a> {
    ghost use Rattle.std.specs.Prelude.{Some};
    ghost use Rattle.cron_answers.specs.Refusals.{refusal_text};

    ghost output = { λ refusal. Some (refusal_text refusal) };

    fn fmt<W: fmt::Write>(&self, f: &mut fmt::Formatter<W>) -> fmt::Result {
        match self {
            Refusal::Crontab(fault) => write!(f, "{fault}"),
            Refusal::Own(fault) => write!(f, "{fault}"),
            Refusal::Quartz(fault) => write!(f, "{fault}"),
        }
    }
}
