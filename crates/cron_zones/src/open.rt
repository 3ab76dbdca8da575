//! Opens a zone: decides what a text names, and reads its file.

ghost use Rattle.std.specs.Prelude.{◌≡◌, IfOk, string_bytes};
ghost use Rattle.std.specs.IoError.{error_kind};
ghost use Rattle.cron_zones.specs.Opening.{IsFailedRead, IsParsed, Opens, ReadsAt, ReadsMachine, file_path};

use crate::error::ZoneError;
use crate::files::ZoneFiles;
use crate::source::{Source, source_of};
use crate::zone::Zone;
use jiff::tz::{TimeZone, Tzif};
use jiff_core::Error;
use std::alloc::{AllocError, Global};
use std::io::{self, ErrorKind};

/// Where zones are looked for. The caller hands it in, from TZDIR, TZ and the paths of its system.
#[derive(Clone, Copy)]
pub struct Places<'a> {
    /// The folder of compiled zone files.
    pub folder: &'a str,
    /// The value of the variable TZ, if it is set.
    pub tz: Option<&'a str>,
    /// The path of the machine's own zone file.
    pub machine: &'a str,
}

// The path of a name's file.
fn file_path(alloc: Global, folder: &str, name: &str) -> Result<String, AllocError>
    ensures { IfOk result (λ path. string_bytes path ≡ file_path folder.now name.now) }
{
    let mut path = String::from_str(alloc, folder)?;
    path.push_str("/")?;
    path.push_str(name)?;
    Ok(path)
}

// The error of a failed read.
fn failed_read(path: String, error: &io::Error) -> ZoneError
    ensures { IsFailedRead (string_bytes path) (error_kind error.now) result }
{
    match error.kind() {
        ErrorKind::OutOfMemory => ZoneError::OutOfMemory,
        kind => ZoneError::Unread { path, kind },
    }
}

// The zone of a file with these bytes.
fn parsed(alloc: Global, path: String, bytes: &[u8]) -> Result<Zone<'static>, ZoneError>
    ensures { IsParsed (string_bytes path) bytes.now result }
{
    match Tzif::parse(alloc, None, bytes) {
        Ok(table) => Ok(Zone::File(table)),
        Err(Error::OutOfMemory) => Err(ZoneError::OutOfMemory),
        Err(_) => Err(ZoneError::NoZoneFile { path }),
    }
}

// Reads the file at a path, once.
fn read_at<F: ZoneFiles>(
    alloc: Global,
    path: String,
    files: &mut F,
) -> Result<Zone<'static>, ZoneError>
    ensures { ReadsAt F.reads (string_bytes path) files.old result files.new }
{
    match files.read(alloc, path.as_str()) {
        Ok(bytes) => parsed(alloc, path, bytes.as_slice()),
        Err(error) => Err(failed_read(path, &error)),
    }
}

// Reads the machine's own file. If there is none the zone is UTC.
fn read_machine<F: ZoneFiles>(
    alloc: Global,
    path: String,
    files: &mut F,
) -> Result<Zone<'static>, ZoneError>
    ensures { ReadsMachine F.reads (string_bytes path) files.old result files.new }
{
    match files.read(alloc, path.as_str()) {
        Ok(bytes) => parsed(alloc, path, bytes.as_slice()),
        Err(error) if error.kind() == ErrorKind::NotFound => Ok(Zone::Stated(TimeZone::UTC)),
        Err(error) => Err(failed_read(path, &error)),
    }
}

/// Opens the zone that a text names. At most one file is read.
pub fn open<'a, F: ZoneFiles>(
    alloc: Global,
    text: &'a str,
    places: &Places<'a>,
    files: &mut F,
) -> Result<Zone<'a>, ZoneError>
    ensures { Opens F.reads text.now places.now files.old result files.new }
{
    let Some(source) = source_of(text, places.tz) else {
        return Err(ZoneError::NoZone);
    };
    match source {
        Source::Stated(zone) => Ok(Zone::Stated(zone)),
        Source::Named(name) => match file_path(alloc, places.folder, name) {
            Ok(path) => read_at(alloc, path, files),
            Err(AllocError) => Err(ZoneError::OutOfMemory),
        },
        Source::At(path) => match String::from_str(alloc, path) {
            Ok(path) => read_at(alloc, path, files),
            Err(AllocError) => Err(ZoneError::OutOfMemory),
        },
        Source::Machine => match String::from_str(alloc, places.machine) {
            Ok(path) => read_machine(alloc, path, files),
            Err(AllocError) => Err(ZoneError::OutOfMemory),
        },
    }
}
