//! The text of an item, as `2022-11-06 01:00:00 -05:00`.

ghost use Rattle.cron_c.specs.Calls.{Answers, Formats};

use crate::buffer::put;
use crate::item::{CronItem, moment_of};
use crate::status::Status;
use cron_moments::line::text_of;

fn format(item: &CronItem, text: &mut [u8], text_length: &mut usize) -> Status
    ensures { Formats item.now text.old text.new text_length.new result }
{
    *text_length = 0;
    let Some(moment) = moment_of(*item) else {
        return Status::NotAnItem;
    };
    let shown = text_of(&moment);
    let bytes = shown.as_slice();
    put(text, 0, bytes);
    *text_length = bytes.len();
    Status::Done
}

/// Writes the text of `item` to `text` as far as it fits, and its whole length to `text_length`. If
/// the struct is no item, the length is 0 and the status `NotAnItem`. Returns the number of a
/// `Status`.
#[unsafe(no_mangle)]
pub extern "C" fn cron_c_format(item: &CronItem, text: &mut [u8], text_length: &mut usize) -> u32
    ensures { Answers (Formats item.now text.old text.new text_length.new) result }
{
    format(item, text, text_length).code()
}
