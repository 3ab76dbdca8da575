//! Texts cut in pieces: at white space, and at single bytes such as `,`.

ghost use Rattle.std.specs.Prelude.{◌≡◌, ◌==◌, ◌<◌, ◌≤◌, ◌∷◌, [], ℕ, IfSome, MatchOption, length, slice_index, true, false};
ghost use Rattle.std.specs.List.{position_or_len};
ghost use Rattle.std.specs.Option.{option_map};
ghost use Rattle.std.specs.Str.{IsUtf8};
ghost use Rattle.cron_text.specs.Tokens.{is_space};
ghost use Rattle.cron_crontab.specs.Crontab.{further_word, is_break, words};
ghost use Rattle.cron_crontab.specs.Items.{pieces};

use cron_text::is_space;

/// The index of the first `mark`, or the length of `text` if there is none.
#[inline(always)]
fn mark_at(text: &[u8], mark: u8) -> usize
    ensures { result ≡ position_or_len (λ b. b == mark) text.now }
{
    for (at, byte) in text.iter().enumerate() {
        if *byte == mark {
            return at;
        }
    }
    text.len()
}

/// Cuts `text` at the first `mark`, an ASCII byte. Returns the text before it and the text after
/// it, which is `None` if there is no `mark`.
#[inline(always)]
pub fn cut_at(text: &str, mark: u8) -> (&str, Option<&str>)
    requires { mark < 128 }
    ensures pieces { MatchOption result.1
        (pieces mark text.now ≡ result.0.now ∷ [])
        (λ rest. pieces mark text.now ≡ result.0.now ∷ pieces mark rest.now) }
    ensures text { IfSome result.1 (λ rest. IsUtf8 rest.now) }
    ensures shorter { IfSome result.1 (λ rest. length rest.now < length text.now) }
{
    let end = mark_at(text.as_bytes(), mark);
    if end >= text.len() {
        return (text, None);
    }
    (&text[..end], Some(&text[end + 1..]))
}

/// The index of the first byte that isn't white space, or the length of `text` if there is none.
#[inline(always)]
fn word_start(text: &[u8]) -> usize
    ensures within { result ≤ length text.now }
    ensures before { (k : ℕ) → k < result → is_space (slice_index text.now k) ≡ true }
    ensures here { result < length text.now → is_space (slice_index text.now result) ≡ false }
{
    for (at, byte) in text.iter().enumerate() {
        if !is_space(*byte) {
            return at;
        }
    }
    text.len()
}

/// The index of the first white space at or after `from`, or the length of `text` if there is none.
#[inline(always)]
fn word_end(text: &[u8], from: usize) -> usize
    requires { from ≤ length text.now }
    ensures further { from ≤ result }
    ensures within { result ≤ length text.now }
    ensures before { (k : ℕ) → from ≤ k → k < result → is_space (slice_index text.now k) ≡ false }
    ensures here { result < length text.now → is_space (slice_index text.now result) ≡ true }
{
    for at in from..text.len() {
        if is_space(text[at]) {
            return at;
        }
    }
    text.len()
}

/// The first word of `text`, and the text after it. `None` if there is no word. White space
/// separates words.
pub fn next_word(text: &str) -> Option<(&str, &str)>
    ensures words { MatchOption result
        (words text.now ≡ []) (λ r. words text.now ≡ r.0.now ∷ words r.1.now) }
    ensures filled { IfSome result (λ r. 0 < length r.0.now) }
{
    let bytes = text.as_bytes();
    let start = word_start(bytes);
    if start >= bytes.len() {
        return None;
    }
    let end = word_end(bytes, start);
    Some((&text[start..end], &text[end..]))
}

#[inline(always)]
fn is_break(byte: u8) -> bool
    ensures { result ≡ is_break byte }
{
    byte == b'\n' || byte == b'\r'
}

/// The index of the first line break, or the length of `text` if there is none.
#[inline(always)]
fn break_at(text: &[u8]) -> usize
    ensures { result ≡ position_or_len is_break text.now }
{
    for (at, byte) in text.iter().enumerate() {
        if is_break(*byte) {
            return at;
        }
    }
    text.len()
}

/// The first word after the first line break, or `None` if there is none.
#[inline(always)]
pub(crate) fn word_behind_break(text: &str) -> Option<&str>
    ensures { option_map (λ word. word.now) result ≡ further_word text.now }
{
    let end = break_at(text.as_bytes());
    if end >= text.len() {
        return None;
    }
    let (word, _) = next_word(&text[end + 1..])?;
    Some(word)
}
