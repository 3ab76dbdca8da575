//! The text of a due fire, as `2022-03-13 03:00:00 -05:00 for 02:30:00`.

ghost use Rattle.cron_c.specs.Calls.{Answers};
ghost use Rattle.cron_c.specs.Dues.{FormatsDue};

use crate::buffer::put;
use crate::due_item::due_of_item;
use crate::item::CronItem;
use crate::status::Status;
use cron_dues::text::text_of;

fn format_due(item: &CronItem, text: &mut [u8], text_length: &mut usize) -> Status
    ensures { FormatsDue item.now text.old text.new text_length.new result }
{
    *text_length = 0;
    let Some(fire) = due_of_item(*item) else {
        return Status::NotAnItem;
    };
    let shown = text_of(&fire);
    let bytes = shown.as_slice();
    put(text, 0, bytes);
    *text_length = bytes.len();
    Status::Done
}

/// Writes the text of the due fire `item` to `text` as far as it fits, and its whole length to
/// `text_length`. If the struct is no due fire, the length is 0 and the status `NotAnItem`. Returns
/// the number of a `Status`.
#[unsafe(no_mangle)]
pub extern "C" fn cron_c_due_format(
    item: &CronItem,
    text: &mut [u8],
    text_length: &mut usize,
) -> u32
    ensures { Answers (FormatsDue item.now text.old text.new text_length.new) result }
{
    format_due(item, text, text_length).code()
}
