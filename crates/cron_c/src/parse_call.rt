//! A cron expression, read into the struct of a schedule.

ghost use Rattle.cron_c.specs.Calls.{Answers, Parses};

use crate::buffer::refuse;
use crate::schedule::{CronSchedule, schedule_of};
use crate::status::Status;
use cron_text::{fault_of, no_ordinals, read_into};

fn parse(
    text: &[u8],
    schedule: &mut CronSchedule,
    message: &mut [u8],
    message_length: &mut usize,
) -> Status
    ensures { Parses text.now schedule.old schedule.new
        message.old message.new message_length.new result }
{
    *message_length = 0;
    let Ok(text) = str::from_utf8(text) else {
        return Status::NotUtf8;
    };
    let mut fields = no_ordinals();
    if read_into(text, &mut fields) {
        *schedule = schedule_of(&fields);
        return Status::Done;
    }
    refuse(&fault_of(text), message, message_length)
}

/// Reads a cron expression, as `0 0,30 9 * * Mon-Fri`, into a schedule. If it is refused, the
/// message is written to a buffer as far as it fits, with its whole length. Returns the number of a
/// `Status`.
#[unsafe(no_mangle)]
pub extern "C" fn cron_c_parse(
    text: &[u8],
    schedule: &mut CronSchedule,
    message: &mut [u8],
    message_length: &mut usize,
) -> u32
    ensures { Answers (Parses text.now schedule.old schedule.new
        message.old message.new message_length.new) result }
{
    parse(text, schedule, message, message_length).code()
}
