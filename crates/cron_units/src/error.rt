//! The error of reading an expression: a message, or that memory ran out.

ghost use Rattle.std.specs.Prelude.{◌≡◌, Some};

use std::alloc::AllocError;
use std::fmt;

/// Why an expression couldn't be read.
#[derive(Debug, Drop)]
pub enum ErrorKind {
    /// The expression is refused, with this message.
    Expression(String),
    /// The allocator refused memory.
    OutOfMemory,
}

/// The error of a call. Its `Display` is the message about the expression, or `out of memory`.
#[derive(Debug, Drop)]
pub struct Error {
    kind: ErrorKind,
}

impl Error {
    /// Returns why the call failed.
    pub fn kind(&self) -> &ErrorKind
        ensures { result.now ≡ self.now.kind }
    {
        &self.kind
    }
}

impl fmt::Display for Error {
    ghost use Rattle.std.specs.Prelude.{Some};
    ghost use Rattle.cron_units.specs.Texts.{error_text};

    ghost output = { λ e. Some (error_text e) };

    ghost styled_output = { λ e _. Some (error_text e) };

    fn fmt<W: fmt::Write>(&self, f: &mut fmt::Formatter<W>) -> fmt::Result {
        match &self.kind {
            ErrorKind::Expression(text) => f.write_str(text.as_str()),
            ErrorKind::OutOfMemory => f.write_str("out of memory"),
        }
    }
}

impl std::error::Error for Error {}

impl From<ErrorKind> for Error {
    ghost from_gives = { λ kind e. e ≡ record { kind = kind } };

    fn from(kind: ErrorKind) -> Error {
        Error { kind }
    }
}

impl From<AllocError> for Error {
    ghost use Rattle.std.specs.Prelude.{◌≡◌};
    ghost use Rattle.cron_units.specs.declared.error.ErrorKind.TheVariants.{OutOfMemory};

    ghost from_gives = { λ _ e. e ≡ record { kind = OutOfMemory } };

    fn from(_refused: AllocError) -> Error {
        Error {
            kind: ErrorKind::OutOfMemory,
        }
    }
}
