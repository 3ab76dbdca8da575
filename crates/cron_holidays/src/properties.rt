//! The properties of iCalendar files: a name in any case, parameters, a value.
ghost use Rattle.std.specs.Prelude.{◌≡◌, ◌≤◌, false, length};
ghost use Rattle.std.specs.List.{prefix_len};
ghost use Rattle.cron_holidays.specs.Properties.{head_len, in_name, is_repetition, is_word, kind_of, name_of, property_of, value_of};

/// What a property says of an event.
#[derive(Clone, Copy)]
pub(crate) enum Property {
    /// The first day of an event.
    DtStart,
    /// The first day after an event.
    DtEnd,
    Status,
    Duration,
    /// A rule of repetition, or a part of one.
    Repeats,
    /// A property that isn't read.
    Unread,
}

/// What a line says.
#[derive(Clone, Copy)]
pub(crate) enum Kind {
    /// A component begins.
    Begin,
    /// A component ends.
    End,
    Other(Property),
}

/// Returns true if `text` is `word`, in any case.
pub(crate) fn is_word(text: &[u8], word: &[u8]) -> bool
    ensures { result ≡ is_word text.now word.now }
{
    text.eq_ignore_ascii_case(word)
}

fn name_len(text: &[u8]) -> usize
    ensures is { result ≡ prefix_len in_name text.now }
    ensures within { result ≤ length text.now }
{
    for (at, byte) in text.iter().enumerate() {
        if *byte == b':' || *byte == b';' {
            return at;
        }
    }
    text.len()
}

/// The name of a property.
pub(crate) fn name_of(text: &[u8]) -> &[u8]
    ensures { result.now ≡ name_of text.now }
{
    &text[..name_len(text)]
}

/// The number of bytes in front of the first colon that isn't between quotation marks.
fn head_len(text: &[u8]) -> usize
    ensures is { result ≡ head_len false text.now }
    ensures within { result ≤ length text.now }
{
    let mut quoted = false;
    for (at, byte) in text.iter().enumerate() {
        if *byte == b':' && !quoted {
            return at;
        }
        if *byte == b'"' {
            quoted = !quoted;
        }
    }
    text.len()
}

/// The value of a property. A line without a colon has an empty one.
pub(crate) fn value_of(text: &[u8]) -> &[u8]
    ensures { result.now ≡ value_of text.now }
{
    let end = head_len(text);
    if end == text.len() {
        return &text[end..];
    }
    &text[end + 1..]
}

fn is_repetition(name: &[u8]) -> bool
    ensures { result ≡ is_repetition name.now }
{
    is_word(name, b"RRULE".as_slice())
        || is_word(name, b"RDATE".as_slice())
        || is_word(name, b"EXRULE".as_slice())
        || is_word(name, b"EXDATE".as_slice())
}

/// The property with this name.
fn property_of(name: &[u8]) -> Property
    ensures { result ≡ property_of name.now }
{
    if is_word(name, b"DTSTART".as_slice()) {
        return Property::DtStart;
    }
    if is_word(name, b"DTEND".as_slice()) {
        return Property::DtEnd;
    }
    if is_word(name, b"STATUS".as_slice()) {
        return Property::Status;
    }
    if is_word(name, b"DURATION".as_slice()) {
        return Property::Duration;
    }
    if is_repetition(name) {
        return Property::Repeats;
    }
    Property::Unread
}

/// What a line with this name says.
pub(crate) fn kind_of(name: &[u8]) -> Kind
    ensures { result ≡ kind_of name.now }
{
    if is_word(name, b"BEGIN".as_slice()) {
        return Kind::Begin;
    }
    if is_word(name, b"END".as_slice()) {
        return Kind::End;
    }
    Kind::Other(property_of(name))
}
