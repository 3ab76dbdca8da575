//! Access of subcommands to the machine: files, the clock and TZ, and messages if one of these
//! can't be read.

use cron_answers::trouble::{Trouble, tell, zone_word};
use cron_controls::Controls;
use cron_replies::status::Status;
use cron_writer::watched::{Watched, send};
use cron_zones::machine::{LOCAL_FILE, MachineFiles, ZONE_FOLDER};
use cron_zones::open::{Places, open};
use cron_zones::zone::Zone;
use jiff::Timestamp;
use std::alloc::Global;
use std::env::{self, VarError};
use std::fmt::Display;
use std::fs;
use std::io::{self, ErrorKind, IsTerminal, Read};

/// The length of the longest file that is read: 64 MiB. A device might never end.
const MOST_BYTES: u64 = 1 << 26;

fn read_whole<R: Read + Drop>(alloc: Global, reader: R) -> io::Result<Vec<u8>> {
    let mut bytes = Vec::new(alloc);
    let mut reader = reader.take(MOST_BYTES + 1);
    reader.read_to_end(&mut bytes)?;
    if bytes.len() as u64 > MOST_BYTES {
        return Err(io::Error::from(ErrorKind::FileTooLarge));
    }
    Ok(bytes)
}

/// Reads a whole file, or standard input if `path` is `-`.
pub fn read_file(rt: &HostRuntime, path: &str) -> io::Result<Vec<u8>> {
    if path == "-" {
        return read_whole(rt.alloc(), rt.reader());
    }
    read_whole(rt.alloc(), fs::open(rt, path)?)
}

/// How control characters are written to a stream.
pub fn controls_of<T: IsTerminal>(stream: &T) -> Controls {
    if stream.is_terminal() {
        Controls::Shown
    } else {
        Controls::Raw
    }
}

/// Writes to standard error why something can't be done. Returns `status`, or `WriteFailed` if that
/// fails.
pub fn complain(rt: &HostRuntime, why: &str, status: Status) -> Status {
    match eprintln!(rt; "error: {why}") {
        Ok(()) => status,
        Err(_) => Status::WriteFailed,
    }
}

/// Writes an error that ends the subcommand to standard error. Returns `Unreadable`, or
/// `WriteFailed` if that fails, as the status of the subcommand.
pub fn say_error<E: Display>(rt: &HostRuntime, error: &E) -> Status {
    match eprintln!(rt; "error: {error}") {
        Ok(()) => Status::Unreadable,
        Err(_) => Status::WriteFailed,
    }
}

/// Writes to standard error why a file can't be read. Returns the status of the subcommand.
pub fn say_unread(rt: &HostRuntime, file: &str, error: &io::Error) -> Status {
    match eprintln!(rt; "error: {file}: {error}") {
        Ok(()) => Status::Unreadable,
        Err(_) => Status::WriteFailed,
    }
}

/// Writes to standard error that memory ran out. Returns the status of the subcommand.
pub fn no_memory(rt: &HostRuntime) -> Status {
    complain(rt, "out of memory", Status::Unreadable)
}

/// Reads the files. For the first that can't be read, it writes why and returns the status of the
/// subcommand.
pub fn read_all(rt: &HostRuntime, names: &[&str]) -> Result<Vec<Vec<u8>>, Status> {
    let mut read = Vec::new(rt.alloc());
    for name in names {
        let bytes = match read_file(rt, *name) {
            Ok(bytes) => bytes,
            Err(error) => return Err(say_unread(rt, *name, &error)),
        };
        if read.push(bytes).is_err() {
            return Err(no_memory(rt));
        }
    }
    Ok(read)
}

/// Writes a whole page to standard output, and flushes.
pub fn write_page(rt: &HostRuntime, page: &[u8]) -> Status {
    let mut out = Watched::new(io::writer(rt));
    send(&mut out, page);
    if out.has_failed() || out.flush().is_err() {
        return Status::WriteFailed;
    }
    Status::Done
}

/// The surroundings of a subcommand: the current instant, and the values of TZ and TZDIR.
#[derive(Drop)]
pub struct Surroundings {
    pub now: Timestamp,
    tz: Option<String>,
    folder: Option<String>,
}

// The value of a variable, or `None` if it isn't set. If it can't be read, that is written, and
// `Err` has the status of the subcommand.
fn variable(rt: &HostRuntime, name: &str) -> Result<Option<String>, Status> {
    match env::var(rt, name) {
        Ok(text) => Ok(Some(text)),
        Err(VarError::NotPresent) => Ok(None),
        Err(_) => match eprintln!(rt; "error: {name} can't be read") {
            Ok(()) => Err(Status::Unreadable),
            Err(_) => Err(Status::WriteFailed),
        },
    }
}

impl Surroundings {
    /// The surroundings of the machine. If they can't be read, the reason is written, and `Err` has
    /// the status of the subcommand.
    pub fn of(rt: &HostRuntime) -> Result<Surroundings, Status> {
        let Ok(now) = Timestamp::now(rt) else {
            return Err(complain(rt, "the clock can't be read", Status::Unreadable));
        };
        Ok(Surroundings {
            now,
            tz: variable(rt, "TZ")?,
            folder: variable(rt, "TZDIR")?,
        })
    }

    /// The same without a message, for what follows one: a variable that can't be read counts as
    /// not set, and the instant is the least.
    pub(crate) fn quietly(rt: &HostRuntime) -> Surroundings {
        Surroundings {
            now: Timestamp::MIN,
            tz: env::var(rt, "TZ").ok(),
            folder: env::var(rt, "TZDIR").ok(),
        }
    }

    /// The places where zones are searched.
    pub fn places(&self) -> Places<'_> {
        Places {
            folder: match &self.folder {
                Some(folder) if !folder.as_str().is_empty() => folder.as_str(),
                _ => ZONE_FOLDER,
            },
            tz: self.tz.as_ref().map(|text| text.as_str()),
            machine: LOCAL_FILE,
        }
    }
}

/// Writes to standard error why something can't be done. Returns the status of the subcommand.
pub fn say_trouble(rt: &HostRuntime, trouble: &Trouble<'_>) -> Status {
    tell(rt.alloc(), trouble, &mut Watched::new(rt.stderr()))
}

/// Opens a zone. If it can't be opened, the reason is written, and `Err` has the status of the
/// subcommand.
pub fn open_zone<'a>(
    rt: &HostRuntime,
    zone: &'a str,
    around: &'a Surroundings,
) -> Result<Zone<'a>, Status> {
    let places = around.places();
    match open(rt.alloc(), zone, &places, &mut MachineFiles(rt)) {
        Ok(opened) => Ok(opened),
        Err(error) => {
            let word = zone_word(zone, &places);
            Err(say_trouble(rt, &Trouble::Zone(word, error)))
        }
    }
}
