//! The text of a moment, and its line, made without allocating memory.

ghost use Rattle.std.specs.Prelude.{◌≡◌, ◌≤◌, ◌+◌, ◌++◌};
ghost use Rattle.arrayvec.specs.ArrayVec.{array_vec_len};
ghost use Rattle.cron_moments.specs.MomentText.{two_digits, date_text, time_text, offset_text, moment_text, item_line};

use crate::moment::Moment;
use arrayvec::ArrayVec;
use jiff::civil::{Date, Time};
use jiff::tz::Offset;
use std::fmt;

/// The longest line: `2022-11-06 01:00:00 -05:50:36` and a line feed.
const LONGEST: usize = 30;

/// The bytes of a moment's text or line.
pub type Line = ArrayVec<u8, LONGEST>;

// Appends the last two digits of `number`.
fn push_two(line: &mut Line, number: u32)
    requires { array_vec_len line.old + 2 ≤ 30 }
    ensures items { line.new.items ≡ line.old.items ++ two_digits number }
    ensures len { array_vec_len line.new ≡ array_vec_len line.old + 2 }
{
    line.push(b'0' + (number / 10 % 10) as u8);
    line.push(b'0' + (number % 10) as u8);
}

fn push_date(line: &mut Line, date: Date)
    requires { array_vec_len line.old + 10 ≤ 30 }
    ensures items { line.new.items ≡ line.old.items ++ date_text date }
    ensures len { array_vec_len line.new ≡ array_vec_len line.old + 10 }
{
    let year = date.year().unsigned_abs() as u32;
    push_two(line, year / 100);
    push_two(line, year);
    line.push(b'-');
    push_two(line, date.month() as u32);
    line.push(b'-');
    push_two(line, date.day() as u32);
}

fn push_time(line: &mut Line, time: Time)
    requires { array_vec_len line.old + 8 ≤ 30 }
    ensures items { line.new.items ≡ line.old.items ++ time_text time }
    ensures len { array_vec_len line.new ≡ array_vec_len line.old + 8 }
{
    push_two(line, time.hour() as u32);
    line.push(b':');
    push_two(line, time.minute() as u32);
    line.push(b':');
    push_two(line, time.second() as u32);
}

fn push_offset(line: &mut Line, offset: Offset)
    requires { array_vec_len line.old + 9 ≤ 30 }
    ensures items { line.new.items ≡ line.old.items ++ offset_text offset.seconds }
    ensures len { array_vec_len line.new ≤ array_vec_len line.old + 9 }
{
    let seconds = offset.seconds();
    line.push(if seconds < 0 { b'-' } else { b'+' });
    let size = seconds.unsigned_abs();
    push_two(line, size / 3600);
    line.push(b':');
    push_two(line, size / 60 % 60);
    if size % 60 != 0 {
        line.push(b':');
        push_two(line, size % 60);
    }
}

/// The text of a moment, as its `Display` prints it: `2022-11-06 01:00:00 -05:00`.
pub fn text_of(moment: &Moment) -> Line
    ensures text { result.items ≡ moment_text moment.now }
    ensures room { array_vec_len result + 1 ≤ 30 }
{
    let mut line = Line::new();
    let shown = moment.datetime();
    push_date(&mut line, shown.date());
    line.push(b' ');
    push_time(&mut line, shown.time());
    line.push(b' ');
    push_offset(&mut line, moment.offset());
    line
}

impl fmt::Display for Moment {
    ghost use Rattle.std.specs.Prelude.{Some};
    ghost use Rattle.cron_moments.specs.MomentText.{moment_text};

    ghost output = { λ m. Some (moment_text m) };

    ghost styled_output = { λ m _. Some (moment_text m) };

    fn fmt<W: fmt::Write>(&self, f: &mut fmt::Formatter<W>) -> fmt::Result {
        match str::from_utf8(text_of(self).as_slice()) {
            Ok(text) => f.write_str(text),
            // never happens, since digits and signs are UTF-8
            Err(_) => Err(fmt::Error),
        }
    }
}

/// The text of a moment and a line feed.
pub fn line_of(moment: &Moment) -> Line
    ensures { result.items ≡ item_line moment.now }
{
    let mut line = text_of(moment);
    line.push(b'\n');
    line
}
