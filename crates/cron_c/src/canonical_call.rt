//! The canonical text of a schedule: the one text that all schedules with the same sets share.

ghost use Rattle.cron_c.specs.Calls.{Answers};
ghost use Rattle.cron_c.specs.Canonical.{WritesCanonical};
ghost use Rattle.cron_c.specs.Structs.{sets_of};

use crate::buffer::put;
use crate::schedule::{CronSchedule, fields_of};
use crate::status::Status;
use cron_canonical::canonical_text;

fn canonical(schedule: &CronSchedule, text: &mut [u8], text_length: &mut usize) -> Status
    ensures { WritesCanonical (sets_of schedule.now) text.old text.new text_length.new result }
{
    *text_length = 0;
    let Some(shown) = canonical_text(&fields_of(schedule)) else {
        return Status::NotAnItem;
    };
    let bytes = shown.as_slice();
    put(text, 0, bytes);
    *text_length = bytes.len();
    Status::Done
}

/// Writes the canonical text of `schedule` to `text` as far as it fits, and its whole length to
/// `text_length`. The status is `NotAnItem` if no text means the schedule, since a set is empty.
/// Returns the number of a `Status`.
#[unsafe(no_mangle)]
pub extern "C" fn cron_c_canonical(
    schedule: &CronSchedule,
    text: &mut [u8],
    text_length: &mut usize,
) -> u32
    ensures { Answers (WritesCanonical (sets_of schedule.now) text.old text.new text_length.new)
        result }
{
    canonical(schedule, text, text_length).code()
}
