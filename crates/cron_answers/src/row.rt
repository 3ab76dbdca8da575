//! The row of a fire, its text or an object of JSON, made without allocation.

ghost use Rattle.std.specs.Prelude.{◌≡◌, ◌≤◌, ◌+◌, ◌++◌, ◌∷◌, ℕ, ℤ, List, [], codes, length, neg_ℤ, pos};
ghost use Rattle.std.specs.Fmt.{signed_decimal};
ghost use Rattle.jiff_core.specs.Calendar.{IsBetween};
ghost use Rattle.jiff_core.specs.declared.Offset.{Offset as PlainOffset};
ghost use Rattle.arrayvec.specs.ArrayVec.{array_vec_len};
ghost use Rattle.cron_moments.specs.Readings.{Reading};
ghost use Rattle.cron_answers.specs.Rows.{json_row, row, text_row};

use arrayvec::ArrayVec;
use cron_dues::fire::{DueFire, due_second, nominal_second};
use cron_dues::text::{self, Text};
use cron_looks::clock_at;
use cron_moments::line;
use cron_moments::moment::{Moment, civil_second, instant_of};
use cron_replies::form::Form;
use itoa::Buffer;
use jiff::tz::Offset;

/// The bytes of the longest row: an object of JSON with the longest text of a due fire and twenty
/// digits.
const LONGEST: usize = 94;

/// The bytes of a row.
pub type Row = ArrayVec<u8, LONGEST>;

/// A fire that a row shows.
pub trait Told: Copy {
    // how the fire is printed
    ghost text: { Self → List ℕ };

    // the fire's instant, in seconds since 1970-01-01T00:00:00Z
    ghost second: { Self → ℤ };

    // how far the clock is ahead of UTC at the fire
    ghost offset: { Self → PlainOffset };

    // the civil second that matches, in seconds since 1970-01-01 00:00:00
    ghost civil: { Self → ℕ };

    // what the clock shows at the fire's instant
    ghost shown: { Self → Reading };

    /// How the fire is printed.
    fn text(&self) -> Text
        ensures { result.items ≡ text self.now };

    /// The fire's instant, in seconds since 1970-01-01T00:00:00Z.
    fn second(&self) -> i64
        ensures value { result ≡ second self.now }
        ensures bound { IsBetween (neg_ℤ (pos 93_599)) (pos 8_590_028_189) result };

    /// How far the clock is ahead of UTC at the fire.
    fn offset(&self) -> Offset
        ensures { result ≡ offset self.now };

    /// The civil second that matches, in seconds since 1970-01-01 00:00:00.
    fn civil(&self) -> u32
        ensures { result ≡ civil self.now };

    /// What the clock shows at the fire's instant.
    fn shown(&self) -> Moment
        ensures { result ≡ shown self.now };
}

impl Told for Moment {
    ghost use Rattle.cron_moments.specs.MomentText.{moment_text};
    ghost use Rattle.cron_moments.specs.Readings.{instant};

    ghost text = { moment_text };

    ghost second = { instant };

    ghost offset = { λ moment. moment.offset };

    ghost civil = { λ moment. moment.second };

    ghost shown = { λ moment. moment };

    fn text(&self) -> Text {
        let mut text = Text::new();
        text.try_extend_from_slice(line::text_of(self).as_slice())
            .unwrap();
        text
    }

    fn second(&self) -> i64 {
        instant_of(self)
    }

    fn offset(&self) -> Offset {
        Moment::offset(self)
    }

    fn civil(&self) -> u32 {
        civil_second(self)
    }

    fn shown(&self) -> Moment {
        *self
    }
}

impl Told for DueFire {
    ghost use Rattle.cron_dues.specs.Due.{instant};
    ghost use Rattle.cron_dues.specs.DueText.{due_text, shown};

    ghost text = { due_text };

    ghost second = { instant };

    ghost offset = { λ due. due.offset };

    ghost civil = { λ due. due.second };

    ghost shown = { shown };

    fn text(&self) -> Text {
        text::text_of(self)
    }

    fn second(&self) -> i64 {
        due_second(self)
    }

    fn offset(&self) -> Offset {
        DueFire::offset(self)
    }

    fn civil(&self) -> u32 {
        nominal_second(self)
    }

    fn shown(&self) -> Moment {
        clock_at(self)
    }
}

// Appends bytes, which must fit in.
fn push_bytes(row: &mut Row, bytes: &[u8])
    requires { array_vec_len row.old + length bytes.now ≤ 94 }
    ensures items { row.new.items ≡ row.old.items ++ bytes.now }
    ensures len { array_vec_len row.new ≡ array_vec_len row.old + length bytes.now }
{
    row.try_extend_from_slice(bytes).unwrap();
}

fn text_row(text: &[u8]) -> Row
    requires { length text.now ≤ 53 }
    ensures { result.items ≡ text_row text.now }
{
    let mut row = Row::new();
    push_bytes(&mut row, text);
    push_bytes(&mut row, b"\n");
    row
}

// Appends a number in digits.
fn push_number(row: &mut Row, number: i64)
    requires { array_vec_len row.old + 20 ≤ 94 }
    ensures items { row.new.items ≡ row.old.items ++ signed_decimal number }
    ensures len { array_vec_len row.new ≤ array_vec_len row.old + 20 }
{
    let mut buffer = Buffer::new();
    push_bytes(row, buffer.format(number).as_bytes());
}

fn json_row(text: &[u8], second: i64) -> Row
    requires { length text.now ≤ 53 }
    ensures { result.items ≡ json_row text.now second }
{
    let mut row = Row::new();
    push_bytes(&mut row, b"{\"fire\":\"");
    push_bytes(&mut row, text);
    push_bytes(&mut row, b"\",\"epoch\":");
    push_number(&mut row, second);
    push_bytes(&mut row, b"}\n");
    row
}

/// The row of a fire in the form `form`, with its line feed.
pub fn row_of<F: Told>(form: Form, fire: &F) -> Row
    ensures { result.items ≡ row form (F.text fire.now) (F.second fire.now) }
{
    let text = fire.text();
    match form {
        Form::Text => text_row(text.as_slice()),
        Form::Json => json_row(text.as_slice(), fire.second()),
    }
}
