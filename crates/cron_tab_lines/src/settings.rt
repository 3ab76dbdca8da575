//! Settings: a name, `=`, a value.

ghost use Rattle.std.specs.Prelude.{◌≡◌, ◌<◌, ◌==◌, true, false, Ok, Err, Some, None, MatchOption, MatchResult, drop, length};
ghost use Rattle.cron_tab_lines.specs.Bytes.{first, is_quote};
ghost use Rattle.cron_tab_lines.specs.Settings.{name_at, name_of, trimmed, value_of};
ghost use Rattle.cron_tab_lines.specs.Views.{refusal_view};

use crate::bytes::{Class, behind, cut, is_quote, is_white};
use crate::refusals::Refusal;

/// The first byte of `text` if it is a quotation mark, else `None`.
fn opening(text: &[u8]) -> Option<u8>
    ensures { MatchOption result
        (is_quote (first text.now) ≡ false)
        (λ mark. (is_quote (first text.now) ≡ true)
        × (mark ≡ first text.now)
        × (0 < length text.now)) }
{
    match text.first() {
        Some(byte) if is_quote(*byte) => Some(*byte),
        _ => None,
    }
}

/// The rest of `text` after its first byte, or `None` if that byte isn't `wanted`.
fn behind_byte(text: &[u8], wanted: u8) -> Option<&[u8]>
    requires { 0 < wanted }
    ensures { MatchOption result
        ((first text.now == wanted) ≡ false)
        (λ rest. ((first text.now == wanted) ≡ true) × (rest.now ≡ drop 1 text.now)) }
{
    match text.first() {
        Some(byte) if *byte == wanted => Some(&text[1..]),
        _ => None,
    }
}

/// Cuts `text` into a name, bare or quoted, and the rest after it. `None` if a quoted name isn't
/// closed or has a `=`.
fn cut_name(text: &[u8]) -> Option<(&[u8], &[u8])>
    ensures { MatchOption result
        (name_at text.now ≡ None) (λ cut. name_at text.now ≡ Some (cut.0.now, cut.1.now)) }
{
    let Some(mark) = opening(text) else {
        return Some(cut(text, Class::Name));
    };
    let (name, rest) = cut(&text[1..], Class::QuotedName(mark));
    let rest = behind_byte(rest, mark)?;
    Some((name, rest))
}

/// Reads a name and the `=` after it. Returns the name and the text after the `=`. White space
/// around the `=` is skipped. `None` if there is no such name or no `=`.
pub(crate) fn read_name(text: &[u8]) -> Option<(&[u8], &[u8])>
    ensures { MatchOption result
        (name_of text.now ≡ None) (λ cut. name_of text.now ≡ Some (cut.0.now, cut.1.now)) }
{
    let (name, rest) = cut_name(text)?;
    let value = behind_byte(behind(rest, Class::White), b'=')?;
    Some((name, behind(value, Class::White)))
}

/// The text without the white space at its end.
fn trim_end(text: &[u8]) -> &[u8]
    ensures { result.now ≡ trimmed text.now }
{
    let mut end = 0;
    for (at, byte) in text.iter().enumerate() {
        if !is_white(*byte) {
            end = at + 1;
        }
    }
    &text[..end]
}

/// Reads `text` as a value, bare or quoted. A bare value has no white space at its end, and a
/// quoted value is the text between the quotation marks.
pub(crate) fn read_value(text: &[u8]) -> Result<&[u8], Refusal<'_>>
    ensures { MatchResult result
        (λ value. value_of text.now ≡ Ok value.now)
        (λ r. value_of text.now ≡ Err (refusal_view r)) }
{
    if text.is_empty() {
        return Err(Refusal::NoValue);
    }
    let Some(mark) = opening(text) else {
        return Ok(trim_end(text));
    };
    let (value, rest) = cut(&text[1..], Class::Quoted(mark));
    let Some(rest) = behind_byte(rest, mark) else {
        return Err(Refusal::OpenQuote);
    };
    if !behind(rest, Class::White).is_empty() {
        return Err(Refusal::BehindQuote);
    }
    Ok(value)
}
