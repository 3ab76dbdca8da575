//! Why a zone can't be opened.

ghost use Rattle.std.specs.Prelude.{◌≡◌, Some, string_bytes};

use std::error::Error;
use std::fmt;
use std::io::ErrorKind;

/// Why a zone can't be opened. If a file was looked for, its path is given.
#[derive(Debug, Drop)]
pub enum ZoneError {
    /// The text is neither `UTC`, nor `local`, nor a rule text, nor a name.
    NoZone,
    /// The file can't be read.
    Unread {
        /// The path of the file.
        path: String,
        /// The kind of the error of reading it.
        kind: ErrorKind,
    },
    /// The file isn't a compiled zone file.
    NoZoneFile {
        /// The path of the file.
        path: String,
    },
    /// Memory ran out.
    OutOfMemory,
}

impl fmt::Display for ZoneError {
    ghost use Rattle.std.specs.Prelude.{Some};
    ghost use Rattle.cron_zones.specs.Messages.{zone_error_text};

    ghost output = { λ error. Some (zone_error_text error) };

    fn fmt<W: fmt::Write>(&self, f: &mut fmt::Formatter<W>) -> fmt::Result {
        match self {
            ZoneError::NoZone => f.write_str(
                "it is neither UTC, nor local, nor a rule, nor a name",
            ),
            ZoneError::Unread { path, .. } => write!(f, "no file can be read at {path}"),
            ZoneError::NoZoneFile { path } => write!(f, "no compiled zone file is at {path}"),
            ZoneError::OutOfMemory => f.write_str("out of memory"),
        }
    }
}

impl Error for ZoneError {}
