//! Names of the time zone database.

ghost use Rattle.std.specs.Prelude.{◌≡◌, codes, take};
ghost use Rattle.std.specs.Str.{bytes_eq};
ghost use Rattle.cron_zones.specs.Names.{is_name_byte, is_zone_name, pieces_fit, stands_behind};

// Whether a byte may be in a name: a letter, a digit, or one of `+-_./`.
fn is_name_byte(byte: u8) -> bool
    ensures { result ≡ is_name_byte byte }
{
    byte.is_ascii_alphanumeric() || matches!(byte, b'+' | b'-' | b'_' | b'.' | b'/')
}

// Whether `byte` may follow `before` in a name. The pieces between slashes aren't empty, and don't
// begin with a dot.
fn stands_behind(before: u8, byte: u8) -> bool
    ensures { result ≡ stands_behind before byte }
{
    is_name_byte(byte) && !(before == b'/' && (byte == b'/' || byte == b'.'))
}

// Whether each piece of a name between slashes has a byte and doesn't begin with a dot.
fn pieces_fit(name: &[u8]) -> bool
    ensures { result ≡ pieces_fit 47 name.now }
{
    let mut before = b'/';
    for byte in name {
        if !stands_behind(before, *byte) {
            return false;
        }
        before = *byte;
    }
    before != b'/'
}

// Whether the name begins with `right/`.
fn is_right(name: &str) -> bool
    ensures { result ≡ bytes_eq (take 6 name.now) (codes "right/") }
{
    let front = name.len().min(6);
    &name.as_bytes()[..front] == b"right/".as_slice()
}

/// Whether a text is a name of the time zone database, as `America/Chicago`. A name can't leave the
/// folder of zone files, nor name a hidden file. Names that begin with `right/` are left out, since
/// their seconds are counted differently.
pub fn is_zone_name(text: &str) -> bool
    ensures { result ≡ is_zone_name text.now }
{
    pieces_fit(text.as_bytes()) && !is_right(text)
}
