//! The text of a due fire, written without taking memory.
ghost use Rattle.std.specs.Prelude.{◌≡◌, ◌≤◌, ◌+◌, ◌/◌, ◌==◌, ◌++◌, codes, if◌then◌else◌, length};
ghost use Rattle.arrayvec.specs.ArrayVec.{array_vec_len};
ghost use Rattle.cron_moments.specs.MomentText.{moment_text};
ghost use Rattle.cron_moments.specs.Readings.{reading};
ghost use Rattle.cron_dues.specs.DueText.{due_text, nominal_text};

use crate::fire::{DueFire, nominal_moment, nominal_second, shown_moment};
use arrayvec::ArrayVec;
use cron_moments::civil::SECONDS_PER_DAY;
use cron_moments::line::{self, Line};
use std::fmt;

/// The longest text: `2101-01-01 23:30:00 +25:59:59 for 2100-12-31 23:30:00`.
const LONGEST: usize = 53;

/// The places in the text of a moment where the time of day begins, and where it ends.
const TIME: usize = 11;

const TIME_END: usize = 19;

/// The bytes of a text.
pub type Text = ArrayVec<u8, LONGEST>;

// Appends `bytes` to `text`.
fn push_bytes(text: &mut Text, bytes: &[u8])
    requires { array_vec_len text.old + length bytes.now ≤ 53 }
    ensures items { text.new.items ≡ text.old.items ++ bytes.now }
    ensures len { array_vec_len text.new ≡ array_vec_len text.old + length bytes.now }
{
    text.try_extend_from_slice(bytes).unwrap();
}

// The place where the nominal time begins in the text of the nominal moment. The date is left out
// if it is also the date that the clock shows.
fn nominal_start(fire: &DueFire) -> usize
    ensures { result
        ≡ if fire.now.second / 86_400 == (fire.now.second + fire.now.past) / 86_400 then 11
        else 0 }
{
    let second = nominal_second(fire);
    if second / SECONDS_PER_DAY == (second + fire.seconds_past()) / SECONDS_PER_DAY {
        TIME
    } else {
        0
    }
}

// The text of the nominal time at the due instant's offset. It begins with date and time.
fn nominal_line(fire: &DueFire) -> Line
    ensures text { result.items ≡ moment_text (reading fire.now.second fire.now.offset) }
    ensures long { 19 ≤ array_vec_len result }
{
    line::text_of(&nominal_moment(fire))
}

// The part of `line` that is the nominal time in the fire's text.
fn nominal_bytes<'l>(line: &'l Line, fire: &DueFire) -> &'l [u8]
    requires text { line.now.items ≡ moment_text (reading fire.now.second fire.now.offset) }
    requires long { 19 ≤ array_vec_len line.now }
    ensures value { result.now ≡ nominal_text fire.now }
    ensures fits { length result.now ≤ 19 }
{
    &line.as_slice()[nominal_start(fire)..TIME_END]
}

// Appends ` for ` and the nominal time to `text`.
fn push_nominal(text: &mut Text, fire: &DueFire)
    requires { array_vec_len text.old ≤ 29 }
    ensures { text.new.items ≡ text.old.items ++ (codes " for " ++ nominal_text fire.now) }
{
    let line = nominal_line(fire);
    push_bytes(text, b" for ");
    push_bytes(text, nominal_bytes(&line, fire));
}

/// The text of a due fire, as its `Display` prints it.
pub fn text_of(fire: &DueFire) -> Text
    ensures { result.items ≡ due_text fire.now }
{
    let mut text = Text::new();
    push_bytes(&mut text, line::text_of(&shown_moment(fire)).as_slice());
    if fire.seconds_past() == 0 {
        return text;
    }
    push_nominal(&mut text, fire);
    text
}

impl fmt::Display for DueFire {
    ghost use Rattle.std.specs.Prelude.{Some};
    ghost use Rattle.cron_dues.specs.DueText.{due_text};

    ghost output = { λ d. Some (due_text d) };

    ghost styled_output = { λ d _. Some (due_text d) };

    fn fmt<W: fmt::Write>(&self, f: &mut fmt::Formatter<W>) -> fmt::Result {
        match str::from_utf8(text_of(self).as_slice()) {
            Ok(text) => f.write_str(text),
            // never, since digits and signs are UTF-8
            Err(_) => Err(fmt::Error),
        }
    }
}
