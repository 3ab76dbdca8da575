//! The front of a line's bytes that is text.

ghost use Rattle.std.specs.Prelude.{◌≡◌, take};
ghost use Rattle.std.specs.Str.Lossy.{utf8_valid_len};

use std::str;

/// The longest front of a line that is valid UTF-8. The fields of an entry are ASCII, so it has all
/// of them, whatever bytes the command has.
pub fn text_of(line: &[u8]) -> &str
    ensures { result.now ≡ take (utf8_valid_len line.now) line.now }
{
    match str::from_utf8(line) {
        Ok(text) => text,
        Err(error) => match str::from_utf8(&line[..error.valid_up_to()]) {
            Ok(text) => text,
            // never, since that front is valid UTF-8
            Err(_) => "",
        },
    }
}
