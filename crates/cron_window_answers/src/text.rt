//! The text of an instant in a zone, and the parts of a line, made without allocation.

ghost use Rattle.std.specs.Prelude.{◌≡◌, ◌≤◌, ◌+◌, ◌++◌, length};
ghost use Rattle.std.specs.Fmt.{signed_decimal};
ghost use Rattle.arrayvec.specs.ArrayVec.{array_vec_len};
ghost use Rattle.jiff.specs.Words.{plain_zone};
ghost use Rattle.cron_stretches.specs.Fires.{IsInstant};
ghost use Rattle.cron_window_answers.specs.Texts.{instant_text};

use arrayvec::ArrayVec;
use cron_moments::line::text_of;
use cron_moments::parts::moment_at;
use cron_stretches::fires::instant_at;
use itoa::Buffer;
use jiff::tz::TimeZone;

/// The most bytes of a line: an object of JSON with two instants and a number.
const LONGEST: usize = 128;

/// The bytes of a line.
pub(crate) type Line = ArrayVec<u8, LONGEST>;

/// Appends bytes, which must fit in.
pub(crate) fn push_bytes(line: &mut Line, bytes: &[u8])
    requires { array_vec_len line.old + length bytes.now ≤ 128 }
    ensures items { line.new.items ≡ line.old.items ++ bytes.now }
    ensures len { array_vec_len line.new ≡ array_vec_len line.old + length bytes.now }
{
    line.try_extend_from_slice(bytes).unwrap();
}

/// Appends a number in digits.
pub(crate) fn push_number(line: &mut Line, number: i64)
    requires { array_vec_len line.old + 20 ≤ 128 }
    ensures items { line.new.items ≡ line.old.items ++ signed_decimal number }
    ensures len { array_vec_len line.new ≤ array_vec_len line.old + 20 }
{
    let mut buffer = Buffer::new();
    push_bytes(line, buffer.format(number).as_bytes());
}

/// Appends the text of an instant, `second` since 1970-01-01T00:00:00Z, as the zone's clock shows
/// it.
pub(crate) fn push_instant(line: &mut Line, second: i64, zone: &TimeZone<'_>)
    requires instant { IsInstant second }
    requires room { array_vec_len line.old + 30 ≤ 128 }
    ensures items { line.new.items ≡ line.old.items ++ instant_text (plain_zone zone.now) second }
    ensures len { array_vec_len line.new ≤ array_vec_len line.old + 30 }
{
    match moment_at(second, zone.to_offset(instant_at(second))) {
        Some(moment) => push_bytes(line, text_of(&moment).as_slice()),
        None => {
            push_bytes(line, b"@");
            push_number(line, second);
        }
    }
}
