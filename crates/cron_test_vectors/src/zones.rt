//! Names of zones, the zones that texts open, and the files of a machine.

use crate::words::bytes_of;
use anyhow::Result;
use cron_test_rows::Row;
use cron_zones::files::ZoneFiles;
use cron_zones::machine::MachineFiles;
use cron_zones::names::is_zone_name;
use cron_zones::open::{Places, open};
use jiff::Timestamp;
use std::alloc::Global;
use std::io::{self, ErrorKind};

/// `Etc/GMT-1` as `zic` compiles it: one hour ahead of UTC at all times.
const ONE_AHEAD: &[u8] =
    b"TZif2\0\0\0\0\0\0\0\0\0\0\0\0\0\0\0\0\0\0\0\0\0\0\0\0\0\0\0\0\0\0\0\0\0\0\x01\0\0\0\x04\0\0\x0e\x10\0\0+01\0TZif2\0\0\0\0\0\0\0\0\0\0\0\0\0\0\0\0\0\0\0\0\0\0\0\0\0\0\0\0\0\0\0\0\0\0\x01\0\0\0\x04\0\0\x0e\x10\0\0+01\0\n<+01>-1\n";

/// Two files: a zone file, and one that is no zone file. It counts the reads.
#[derive(Drop)]
struct Shelf {
    reads: u32,
}

impl ZoneFiles for Shelf {
    fn read(&mut self, alloc: Global, path: &str) -> io::Result<Vec<u8>> {
        self.reads = self.reads.saturating_add(1);
        let bytes = match path {
            "/zones/Etc/GMT-1" | "/one" => ONE_AHEAD,
            "/zones/README" => b"text".as_slice(),
            _ => return Err(io::Error::from(ErrorKind::NotFound)),
        };
        let mut file = Vec::new(alloc);
        file.extend_from_slice(bytes)?;
        Ok(file)
    }
}

/// Replays a row, which has a text, and whether it is a zone's name.
pub(crate) fn ask_name(row: &mut Row<'_>) -> Result<()> {
    let bytes = bytes_of(row.alloc(), row.cell())?;
    let text = str::from_utf8(bytes.as_slice())?;
    Ok(row.add("", &is_zone_name(text))?)
}

/// Replays a row, which has a text, the value of TZ or `-` if it isn't set, and the path of the
/// machine's own zone file. The answer is how many seconds the zone is ahead of UTC at the start of
/// 1970, or why it isn't opened, and the number of reads.
pub(crate) fn ask(row: &mut Row<'_>) -> Result<()> {
    let (text, tz, machine) = (row.cell(), row.cell(), row.cell());
    let places = Places {
        folder: "/zones",
        tz: if tz == "-" { None } else { Some(tz) },
        machine,
    };
    let mut shelf = Shelf { reads: 0 };
    match open(row.alloc(), text, &places, &mut shelf) {
        Ok(zone) => {
            let offset = zone.time_zone().to_offset(Timestamp::from_second(0)?);
            row.add("", &offset.seconds())?;
        }
        Err(error) => row.add("", &error)?,
    }
    Ok(row.add(", reads ", &shelf.reads)?)
}

/// Replays a row, which has the path of a file of the machine, and its bytes or the kind of the
/// failure.
pub(crate) fn ask_file(row: &mut Row<'_>) -> Result<()> {
    match MachineFiles(row.rt).read(row.alloc(), row.cell()) {
        Ok(bytes) => {
            let text = str::from_utf8(bytes.as_slice())?;
            let shown = format!(in row.alloc(); "{text:?}")?;
            row.add("", &shown)?;
        }
        Err(error) => {
            let kind = format!(in row.alloc(); "{:?}", error.kind())?;
            row.add("", &kind)?;
        }
    }
    Ok(())
}
