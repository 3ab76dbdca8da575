//! A Quartz expression, read into structs.

ghost use Rattle.cron_c.specs.Calls.{Answers};
ghost use Rattle.cron_c.specs.Crontabs.{ParsesQuartz};

use crate::buffer::refuse;
use crate::crontab_call::write_schedules;
use crate::schedule::CronSchedule;
use crate::status::Status;
use cron_quartz::read;

fn parse(
    text: &[u8],
    schedules: &mut [CronSchedule],
    count: &mut usize,
    message: &mut [u8],
    message_length: &mut usize,
) -> Status
    ensures { ParsesQuartz text.now schedules.old schedules.new count.new
        message.old message.new message_length.new result }
{
    *count = 0;
    *message_length = 0;
    let Ok(text) = str::from_utf8(text) else {
        return Status::NotUtf8;
    };
    let fault = match read(text) {
        Ok(meaning) => return write_schedules(meaning.as_slice(), schedules, count),
        Err(fault) => fault,
    };
    refuse(&fault, message, message_length)
}

/// Reads a Quartz expression into the schedules that it means, and writes their count. If it is
/// refused, the message is written to a buffer as far as it fits, with its whole length. Returns
/// the number of a `Status`.
#[unsafe(no_mangle)]
pub extern "C" fn cron_c_quartz_parse(
    text: &[u8],
    schedules: &mut [CronSchedule],
    count: &mut usize,
    message: &mut [u8],
    message_length: &mut usize,
) -> u32
    ensures { Answers (ParsesQuartz text.now schedules.old schedules.new count.new
        message.old message.new message_length.new) result }
{
    parse(text, schedules, count, message, message_length).code()
}
