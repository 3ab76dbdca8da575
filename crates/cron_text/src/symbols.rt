//! Symbols: what the grammar sees of a token. A token is read once, with its symbol. A number that
//! 32 bits don't hold is a foreign symbol.

ghost use Rattle.std.specs.Prelude.{◌≡◌, ◌<◌, ◌+◌, ◌*◌, [], ℕ, length, slice_index, MatchOption, IfSome, true, false};
ghost use Rattle.std.specs.Char.{digit_value};
ghost use Rattle.cron_text.specs.Tokens.{is_digit, is_letter, is_space, sign_of};
ghost use Rattle.cron_text.specs.Inner.Numbers.{IsCapped, number_symbol};
ghost use Rattle.cron_text.specs.Inner.Places.{IsPlace, tokens_from, AreDigitsAt, IsTokenAt, IsRead, IsLoneStar};
ghost use Rattle.cron_text.specs.Inner.Views.{symbol_view};

use super::tokens::{Place, is_digit, is_letter, letters_end, skip_space};

#[derive(Clone, Copy)]
pub enum Symbol<'a> {
    Number(u32),
    Word(&'a str),
    Star,
    Question,
    Comma,
    Dash,
    Slash,
    /// A number greater than 4294967295, or a byte that may be in no field.
    Foreign,
}

/// The symbol of a byte that is neither a digit nor a letter.
#[inline(always)]
fn sign(byte: u8) -> Symbol<'static>
    ensures { symbol_view result ≡ sign_of byte }
{
    match byte {
        b'*' => Symbol::Star,
        b'?' => Symbol::Question,
        b',' => Symbol::Comma,
        b'-' => Symbol::Dash,
        b'/' => Symbol::Slash,
        _ => Symbol::Foreign,
    }
}

/// The number `value` with one more digit at its end. A `value` that 32 bits don't hold is returned
/// unchanged.
#[inline(always)]
fn with_digit(value: u64, digit: u8) -> u64
    requires digit { is_digit digit ≡ true }
    requires within { value < 42949672960 }
    ensures { (n : ℕ) → IsCapped n value → IsCapped (n * 10 + digit_value digit) result }
{
    if value > u64::from(u32::MAX) {
        return value;
    }
    value * 10 + u64::from(digit - b'0')
}

/// The symbol of the number `value`, which is foreign if 32 bits don't hold it.
#[inline(always)]
fn number(value: u64) -> Symbol<'static>
    ensures { (n : ℕ) → IsCapped n value → symbol_view result ≡ number_symbol n }
{
    match u32::try_from(value) {
        Ok(value) => Symbol::Number(value),
        Err(_) => Symbol::Foreign,
    }
}

/// The value of the digits that begin at the index `at`, and where they end. If 32 bits don't hold
/// the value, another value that they don't hold may be returned. Each digit is read once.
#[inline(always)]
pub fn digits_at(text: &[u8], at: usize) -> (u64, usize)
    requires within { at < length text.now }
    requires digit { is_digit (slice_index text.now at) ≡ true }
    ensures { AreDigitsAt text.now at result.0 result.1 }
{
    let mut value = u64::from(text[at] - b'0');
    for end in at + 1..text.len() {
        if !is_digit(text[end]) {
            return (value, end);
        }
        value = with_digit(value, text[end]);
    }
    (value, text.len())
}

/// The symbol of the number that begins at the index `at`, and where the number ends.
#[inline(always)]
fn number_at(text: &str, at: usize) -> (Symbol<'_>, usize)
    requires within { at < length text.now }
    requires digit { is_digit (slice_index text.now at) ≡ true }
    ensures { IsTokenAt text.now at result.0 result.1 }
{
    let (value, end) = digits_at(text.as_bytes(), at);
    (number(value), end)
}

/// The symbol of the word that begins at the index `at`, and where the word ends.
#[inline(always)]
fn word_at(text: &str, at: usize) -> (Symbol<'_>, usize)
    requires within { at < length text.now }
    requires letter { is_letter (slice_index text.now at) ≡ true }
    ensures { IsTokenAt text.now at result.0 result.1 }
{
    let end = letters_end(text.as_bytes(), at + 1);
    (Symbol::Word(&text[at..end]), end)
}

/// The symbol of the token that begins at the index `at`, and where the token ends.
#[inline(always)]
fn symbol_at(text: &str, at: usize) -> (Symbol<'_>, usize)
    requires within { at < length text.now }
    requires front { is_space (slice_index text.now at) ≡ false }
    ensures { IsTokenAt text.now at result.0 result.1 }
{
    let first = text.as_bytes()[at];
    if is_digit(first) {
        return number_at(text, at);
    }
    if is_letter(first) {
        return word_at(text, at);
    }
    (sign(first), at + 1)
}

/// A token, as the grammar sees it.
#[derive(Clone, Copy)]
pub struct Token<'a> {
    /// True if white space is directly before the token.
    pub spaced: bool,
    pub symbol: Symbol<'a>,
}

/// The token at `place`, and the place of the next token. `None` at the end of the text.
#[inline(always)]
pub fn token_at(text: &str, place: Place) -> Option<(Token<'_>, Place)>
    requires { IsPlace text.now place }
    ensures token { MatchOption result
        (tokens_from text.now place ≡ []) (λ found. IsRead text.now place found.0 found.1) }
    ensures place { IfSome result (λ found. IsPlace text.now found.1) }
    ensures further { IfSome result (λ found. place.at < found.1.at) }
{
    if place.at >= text.len() {
        return None;
    }
    let (symbol, end) = symbol_at(text, place.at);
    let spaced = place.spaced;
    Some((Token { spaced, symbol }, skip_space(text.as_bytes(), end)))
}

/// The place after a star at `place`, if white space or the end of the text follows the star
/// directly. Else `None`.
#[inline(always)]
pub fn lone_star_at(text: &[u8], place: Place) -> Option<Place>
    requires { IsPlace text.now place }
    ensures star { IfSome result (IsLoneStar text.now place) }
    ensures place { IfSome result (IsPlace text.now) }
{
    if place.at >= text.len() {
        return None;
    }
    if text[place.at] != b'*' {
        return None;
    }
    let after = skip_space(text, place.at + 1);
    if after.spaced {
        return Some(after);
    }
    if after.at >= text.len() {
        return Some(after);
    }
    None
}
