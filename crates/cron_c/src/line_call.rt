//! A line of a crontab, read into structs.

ghost use Rattle.std.specs.Prelude.{◌≡◌};
ghost use Rattle.cron_tab_lines.specs.Views.{line_view};
ghost use Rattle.cron_c.specs.Calls.{Answers};
ghost use Rattle.cron_c.specs.CrontabLines.{ParsesLine, WritesLine, kind_of};

use crate::buffer::refuse;
use crate::crontab_call::write_meaning;
use crate::schedule::CronSchedule;
use crate::status::Status;
use cron_tab_lines::{Crontab, Line, read_line};

fn kind_of(is_system: u32) -> Crontab
    ensures { result ≡ kind_of is_system }
{
    if is_system == 0 {
        Crontab::User
    } else {
        Crontab::System
    }
}

// Writes the schedules of an entry. Other lines have none, and `NoItem` is returned.
fn write_line(line: &Line<'_>, schedules: &mut [CronSchedule], count: &mut usize) -> Status
    requires { count.old ≡ 0 }
    ensures { WritesLine (line_view line.now) schedules.old schedules.new count.new result }
{
    match line {
        Line::Entry(entry) => write_meaning(&entry.expression, schedules, count),
        _ => Status::NoItem,
    }
}

fn parse(
    kind: Crontab,
    line: &[u8],
    schedules: &mut [CronSchedule],
    count: &mut usize,
    message: &mut [u8],
    message_length: &mut usize,
) -> Status
    ensures { ParsesLine kind line.now schedules.old schedules.new count.new
        message.old message.new message_length.new result }
{
    *count = 0;
    *message_length = 0;
    let refusal = match read_line(kind, line) {
        Ok(read) => return write_line(&read, schedules, count),
        Err(refusal) => refusal,
    };
    refuse(&refusal, message, message_length)
}

/// Reads a crontab line, without its line feed, into the schedules of its entry, and writes their
/// count. `is_system` is 0 for a user's own crontab. The status is `NoItem` if the line is no
/// entry. If it is refused, the message is written to a buffer as far as it fits, with its whole
/// length. Returns the number of a `Status`.
#[unsafe(no_mangle)]
pub extern "C" fn cron_c_crontab_line_parse(
    line: &[u8],
    is_system: u32,
    schedules: &mut [CronSchedule],
    count: &mut usize,
    message: &mut [u8],
    message_length: &mut usize,
) -> u32
    ensures { Answers (ParsesLine (kind_of is_system) line.now schedules.old schedules.new
        count.new message.old message.new message_length.new) result }
{
    let kind = kind_of(is_system);
    parse(kind, line, schedules, count, message, message_length).code()
}
