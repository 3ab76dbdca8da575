//! Runs of bytes of one class.

ghost use Rattle.std.specs.Prelude.{◌≡◌, ◌≤◌, length};
ghost use Rattle.std.specs.List.{prefix_len, take_while};
ghost use Rattle.cron_tab_lines.specs.Bytes.{behind, is_blank, is_white, is_quote, is_plain};
ghost use Rattle.cron_tab_lines.specs.Inner.Classes.{in_class};

/// A class of bytes.
#[derive(Clone, Copy)]
pub(crate) enum Class {
    /// Space and tab.
    Blank,
    /// All but space and tab.
    Word,
    /// White space as in C's `isspace`: a space, and the bytes 9 to 13.
    White,
    /// All but white space and `=`.
    Name,
    /// All but this quotation mark and `=`.
    QuotedName(u8),
    /// All but this quotation mark.
    Quoted(u8),
}

pub(crate) fn is_blank(byte: u8) -> bool
    ensures { result ≡ is_blank byte }
{
    byte == b' ' || byte == b'\t'
}

pub(crate) fn is_white(byte: u8) -> bool
    ensures { result ≡ is_white byte }
{
    byte == b' ' || (9 <= byte && byte <= 13)
}

pub(crate) fn is_quote(byte: u8) -> bool
    ensures { result ≡ is_quote byte }
{
    byte == b'\'' || byte == b'"'
}

pub(crate) fn is_plain(byte: u8) -> bool
    ensures { result ≡ is_plain byte }
{
    byte == b'\t' || (32 <= byte && byte < 127)
}

impl Class {
    fn has(self, byte: u8) -> bool
        ensures { result ≡ in_class self byte }
    {
        match self {
            Class::Blank => is_blank(byte),
            Class::Word => !is_blank(byte),
            Class::White => is_white(byte),
            Class::Name => !(is_white(byte) || byte == b'='),
            Class::QuotedName(mark) => !(byte == mark || byte == b'='),
            Class::Quoted(mark) => byte != mark,
        }
    }
}

/// The number of bytes at the front of `text` that are in `class`.
fn run_len(text: &[u8], class: Class) -> usize
    ensures is { result ≡ prefix_len (in_class class) text.now }
    ensures within { result ≤ length text.now }
{
    for (at, byte) in text.iter().enumerate() {
        if !class.has(*byte) {
            return at;
        }
    }
    text.len()
}

/// Cuts `text` into the bytes of `class` at its front and the rest.
pub(crate) fn cut(text: &[u8], class: Class) -> (&[u8], &[u8])
    ensures front { result.0.now ≡ take_while (in_class class) text.now }
    ensures behind { result.1.now ≡ behind (in_class class) text.now }
{
    let end = run_len(text, class);
    (&text[..end], &text[end..])
}

/// The rest of `text` after the bytes of `class` at its front.
pub(crate) fn behind(text: &[u8], class: Class) -> &[u8]
    ensures is { result.now ≡ behind (in_class class) text.now }
    ensures shorter { length result.now ≤ length text.now }
{
    &text[run_len(text, class)..]
}
