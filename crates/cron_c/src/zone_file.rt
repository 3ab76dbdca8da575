//! Zones from the bytes of a compiled zone file. The reader of `jiff` refuses other bytes,
//! `savings` refuses a flag of saving time other than 0 and 1, and `era_table` refuses two
//! transitions that share a second.

ghost use Rattle.cron_c.specs.Calls.{Answers};
ghost use Rattle.cron_c.specs.ZoneFiles.{ReadsHistory};

use crate::era::CronEra;
use crate::era_table::write_eras;
use crate::savings::tell_saving;
use crate::status::Status;
use jiff_core::Error;
use jiff_tz::Tzif;
use std::alloc::Global;

fn read_history(alloc: Global, bytes: &[u8], eras: &mut [CronEra], count: &mut usize) -> Status
    ensures { ReadsHistory bytes.now eras.old eras.new count.new result }
{
    *count = 0;
    if !tell_saving(bytes) {
        return Status::BadZone;
    }
    match Tzif::parse(alloc, None, bytes) {
        Ok(table) => write_eras(&table, eras, count),
        Err(error) => match error {
            Error::OutOfMemory => Status::NoMemory,
            _ => Status::BadZone,
        },
    }
}

/// Reads the bytes of a compiled zone file, and writes the eras of its zone if there is room for
/// all of them, and writes their count. It takes memory, and gives it back before it returns.
/// Returns the number of a `Status`.
#[unsafe(no_mangle)]
pub extern "C" fn cron_c_history_read(
    alloc: Global,
    bytes: &[u8],
    eras: &mut [CronEra],
    count: &mut usize,
) -> u32
    ensures { Answers (ReadsHistory bytes.now eras.old eras.new count.new) result }
{
    read_history(alloc, bytes, eras, count).code()
}
