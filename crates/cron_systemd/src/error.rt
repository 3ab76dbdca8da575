//! Why there is no unit.

ghost use Rattle.std.specs.Prelude.{◌≡◌};

use std::alloc::AllocError;
use std::error::Error;
use std::fmt;

/// Why there is no unit.
#[derive(Clone, Copy, Debug, PartialEq, Eq)]
pub enum UnitError {
    /// The user's name isn't one of up to 31 letters, digits, `-` and `_`, with a letter or `_`
    /// first.
    User,
    /// The name of a variable isn't one of letters, digits and `_`, or its value isn't UTF-8 or has
    /// a control character other than a tab.
    Variable,
    /// The shell isn't an absolute path of up to 255 letters, digits and `+-./_`, or ends with `/`.
    Shell,
    /// The command or the input has a NUL.
    Input,
    /// A line of the calendar is empty, or has a byte that isn't printable, a `%`, or a blank at an
    /// end.
    Calendar,
    /// The unit has 1 MiB or more.
    Long,
    /// Memory ran out.
    OutOfMemory,
}

impl fmt::Display for UnitError {
    ghost use Rattle.std.specs.Prelude.{Some};
    ghost use Rattle.cron_systemd.specs.Errors.{error_text};

    ghost output = { λ error. Some (error_text error) };

    fn fmt<W: fmt::Write>(&self, f: &mut fmt::Formatter<W>) -> fmt::Result {
        f.write_str(match self {
            UnitError::User => "systemd takes no such user: a name has letters, digits, - and _",
            UnitError::Variable =>
                "systemd takes no such variable as a line above sets, by its name or its value",
            UnitError::Shell =>
                "systemd takes no such SHELL: it is a path of letters, digits and +-./_",
            UnitError::Input => "systemd takes no NUL",
            UnitError::Calendar => "systemd takes no such line of OnCalendar",
            UnitError::Long => "systemd takes no line of 1 MiB or more",
            UnitError::OutOfMemory => "out of memory",
        })
    }
}

impl Error for UnitError {}

impl From<AllocError> for UnitError {
    ghost use Rattle.cron_systemd.specs.declared.error.UnitError.TheVariants.{OutOfMemory};

    ghost from_gives = { λ _ why. why ≡ OutOfMemory };

    fn from(_error: AllocError) -> UnitError {
        UnitError::OutOfMemory
    }
}
