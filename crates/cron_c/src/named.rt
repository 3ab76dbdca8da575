//! The zone that a text names, read into a struct.

ghost use Rattle.std.specs.Prelude.{MatchOption};
ghost use Rattle.std.specs.Str.{IsUtf8};
ghost use Rattle.jiff.specs.Words.{plain_zone};
ghost use Rattle.cron_moments.specs.Zones.{NamesZone, IsZoneOf};
ghost use Rattle.cron_c.specs.Calls.{Answers};
ghost use Rattle.cron_c.specs.Zones.{ReadsZone};

use crate::status::Status;
use crate::zone::{CronZone, struct_of_zone};
use cron_moments::zone::zone_of;
use jiff::tz::TimeZone;

// The zone that `bytes` name. `None` if they aren't UTF-8, or if the text names no zone.
fn zone_named(bytes: &[u8]) -> Option<TimeZone<'_>>
    ensures { MatchOption result
        (IsUtf8 bytes.now → NamesZone bytes.now → ⊥)
        (λ zone. IsUtf8 bytes.now × IsZoneOf bytes.now (plain_zone zone)) }
{
    match str::from_utf8(bytes) {
        Ok(text) => zone_of(text),
        Err(_) => None,
    }
}

fn read_zone(text: &[u8], zone: &mut CronZone) -> Status
    ensures { ReadsZone text.now zone.old zone.new result }
{
    let Some(named) = zone_named(text) else {
        return Status::BadZone;
    };
    let Some(read) = struct_of_zone(&named) else {
        return Status::BadZone;
    };
    *zone = read;
    Status::Done
}

/// Reads the text of a zone into a struct: `UTC`, or a rule in the form of POSIX. Returns the
/// number of a `Status`.
#[unsafe(no_mangle)]
pub extern "C" fn cron_c_zone_parse(text: &[u8], zone: &mut CronZone) -> u32
    ensures { Answers (ReadsZone text.now zone.old zone.new) result }
{
    read_zone(text, zone).code()
}
