//! Where the tokens of a text begin and end. A token is a number, a word of letters, or one sign.

ghost use Rattle.std.specs.Prelude.{◌≡◌, ◌≤◌, ◌<◌, length, drop, slice_index, ℕ, true, false};
ghost use Rattle.cron_text.specs.Tokens.{tokens, is_space, is_digit, is_letter};
ghost use Rattle.cron_text.specs.Meaning.{trimmed_front, trimmed_end};
ghost use Rattle.cron_text.specs.Inner.Places.{IsPlace, tokens_from};

/// Returns true if `byte` is a space, a tab, a carriage return or a line feed. Most bytes that this
/// is called with are greater.
#[inline(always)]
pub fn is_space(byte: u8) -> bool
    ensures { result ≡ is_space byte }
{
    if byte > b' ' {
        return false;
    }
    matches!(byte, b' ' | b'\t' | b'\r' | b'\n')
}

#[inline(always)]
pub fn is_digit(byte: u8) -> bool
    ensures { result ≡ is_digit byte }
{
    byte.is_ascii_digit()
}

#[inline(always)]
pub fn is_letter(byte: u8) -> bool
    ensures { result ≡ is_letter byte }
{
    byte.is_ascii_alphabetic()
}

/// A place of a text where a token begins or the text ends.
#[derive(Clone, Copy)]
pub struct Place {
    pub at: usize,
    /// True if white space is directly before the token. False at the end of the text.
    pub spaced: bool,
}

/// The first place at or after `from` that isn't white space, or the end of the text.
#[inline(always)]
pub fn skip_space(text: &[u8], from: usize) -> Place
    requires { from ≤ length text.now }
    ensures place { IsPlace text.now result }
    ensures same { tokens_from text.now result ≡ tokens (drop from text.now) }
    ensures trims { drop result.at text.now ≡ trimmed_front (drop from text.now) }
    ensures further { from ≤ result.at }
{
    for at in from..text.len() {
        if !is_space(text[at]) {
            let spaced = from < at;
            return Place { at, spaced };
        }
    }
    Place {
        at: text.len(),
        spaced: false,
    }
}

/// The index where the letters from the index `from` on end.
pub fn letters_end(text: &[u8], from: usize) -> usize
    requires { from ≤ length text.now }
    ensures within { result ≤ length text.now }
    ensures further { from ≤ result }
    ensures before { (k : ℕ) → from ≤ k → k < result → is_letter (slice_index text.now k) ≡ true }
    ensures end { result < length text.now → is_letter (slice_index text.now result) ≡ false }
{
    for at in from..text.len() {
        if !is_letter(text[at]) {
            return at;
        }
    }
    text.len()
}

/// A text without the white space at its end.
pub fn trimmed_end(text: &[u8]) -> &[u8]
    ensures { result.now ≡ trimmed_end text.now }
{
    let mut rest = text;
    while let Some((last, others)) = rest.split_last() {
        if !is_space(*last) {
            break;
        }
        rest = others;
    }
    rest
}
