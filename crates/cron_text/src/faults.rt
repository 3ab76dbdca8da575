//! Why a text means nothing as a schedule, and the message about it.

ghost use Rattle.std.specs.Prelude.{◌≡◌};
ghost use Rattle.cron_text.specs.FaultText.{fault_text};
ghost use Rattle.cron_units.specs.Texts.{Tells};

use cron_units::error::Error;
use cron_units::specifier::{RefusedItem, item_error, text_error};
use std::alloc::Global;
use std::fmt;

// The message about a text that can't be read.
const SYNTAX: &str = "Invalid cron expression.";

/// Why a text means nothing. A fault borrows words of the text, and its `Display` is the message.
#[derive(Clone, Copy)]
pub enum Fault<'a> {
    /// The text can't be read, or its seventh field is refused.
    Syntax,
    /// An item of one of the first six fields is refused.
    Refused(RefusedItem<'a>),
}

impl<'a> fmt::Display for Fault<'a> {
    ghost use Rattle.std.specs.Prelude.{Some};
    ghost use Rattle.cron_text.specs.FaultText.{fault_text};

    ghost output = { λ f. Some (fault_text f) };

    fn fmt<W: fmt::Write>(&self, f: &mut fmt::Formatter<W>) -> fmt::Result {
        match self {
            Fault::Syntax => write!(f, "{SYNTAX}"),
            Fault::Refused(item) => write!(f, "{item}"),
        }
    }
}

/// Makes an error with the message of `fault`.
pub fn fault_error(alloc: Global, fault: Fault<'_>) -> Error
    ensures { Tells (λ text. text ≡ fault_text fault.entry) result }
{
    match fault {
        Fault::Syntax => text_error(alloc, SYNTAX),
        Fault::Refused(item) => item_error(alloc, item),
    }
}
