//! The files of the machine that the program runs on.

use crate::files::ZoneFiles;
use std::alloc::Global;
use std::fs;
use std::io::{self, ErrorKind, Read};
use std::rt::Files;

/// The folder of zone files if TZDIR isn't set.
pub const ZONE_FOLDER: &str = "/usr/share/zoneinfo";

/// The machine's own zone file.
pub const LOCAL_FILE: &str = "/etc/localtime";

/// The length of the longest file that is read, in bytes. The files of the time zone database have
/// a few kilobytes.
const MOST_BYTES: u64 = 1 << 20;

/// The files of the machine. A file that is longer than 1 MiB, or that is no regular file, isn't
/// read: a pipe or a device might never end.
#[derive_where(Clone, Copy)]
pub struct MachineFiles<'a, R>(pub &'a R);

impl<R: Files> ZoneFiles for MachineFiles<'_, R> {
    fn read(&mut self, alloc: Global, path: &str) -> io::Result<Vec<u8>> {
        if !fs::metadata(self.0, path)?.is_file() {
            return Err(io::Error::from(ErrorKind::InvalidInput));
        }
        let mut bytes = Vec::new(alloc);
        let mut file = fs::open(self.0, path)?.take(MOST_BYTES + 1);
        file.read_to_end(&mut bytes)?;
        if bytes.len() as u64 > MOST_BYTES {
            return Err(io::Error::from(ErrorKind::FileTooLarge));
        }
        Ok(bytes)
    }
}
