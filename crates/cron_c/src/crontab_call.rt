//! A crontab expression, read into structs.

ghost use Rattle.cron_crontab.specs.Views.{expression_view};
ghost use Rattle.cron_c.specs.Calls.{Answers};
ghost use Rattle.cron_c.specs.Crontabs.{ParsesCrontab, WritesSchedules, schedules_meant};

use crate::buffer::refuse;
use crate::schedule::{CronSchedule, schedule_of};
use crate::status::Status;
use cron_crontab::{Expression, read};
use cron_units::fields::ScheduleFields;

/// Writes schedules to the front of an array if it has room for all of them, and writes their
/// count.
pub(crate) fn write_schedules(
    all: &[ScheduleFields],
    schedules: &mut [CronSchedule],
    count: &mut usize,
) -> Status
    ensures { WritesSchedules all.now schedules.old schedules.new count.new result }
{
    *count = all.len();
    if schedules.len() < all.len() {
        return Status::More;
    }
    for at in 0..all.len() {
        schedules[at] = schedule_of(&all[at]);
    }
    Status::Done
}

/// Writes the schedules of an expression and their count. It fires when one of them matches, and
/// `@reboot` has none.
pub(crate) fn write_meaning(
    meaning: &Expression,
    schedules: &mut [CronSchedule],
    count: &mut usize,
) -> Status
    ensures { WritesSchedules (schedules_meant (expression_view meaning.now))
        schedules.old schedules.new count.new result }
{
    match meaning {
        Expression::Fires(all) => write_schedules(all.as_slice(), schedules, count),
        Expression::Reboot => write_schedules(&[], schedules, count),
    }
}

fn parse(
    text: &[u8],
    schedules: &mut [CronSchedule],
    count: &mut usize,
    message: &mut [u8],
    message_length: &mut usize,
) -> Status
    ensures { ParsesCrontab text.now schedules.old schedules.new count.new
        message.old message.new message_length.new result }
{
    *count = 0;
    *message_length = 0;
    let Ok(text) = str::from_utf8(text) else {
        return Status::NotUtf8;
    };
    let fault = match read(text) {
        Ok(meaning) => return write_meaning(&meaning, schedules, count),
        Err(fault) => fault,
    };
    refuse(&fault, message, message_length)
}

/// Reads a crontab expression into the schedules that it means, and writes their count. If it is
/// refused, the message is written to a buffer as far as it fits, with its whole length. Returns
/// the number of a `Status`.
#[unsafe(no_mangle)]
pub extern "C" fn cron_c_crontab_parse(
    text: &[u8],
    schedules: &mut [CronSchedule],
    count: &mut usize,
    message: &mut [u8],
    message_length: &mut usize,
) -> u32
    ensures { Answers (ParsesCrontab text.now schedules.old schedules.new count.new
        message.old message.new message_length.new) result }
{
    parse(text, schedules, count, message, message_length).code()
}
