//! Whole texts: five fields, or a nickname.

ghost use Rattle.std.specs.Prelude.{◌≡◌, MatchResult, Ok, Err};
ghost use Rattle.std.specs.Option.{option_map};
ghost use Rattle.cron_crontab.specs.Crontab.{Means, Refuses, begins_with_at, is_capital, meant_by, nickname_of, has_word, nicknames, outcome_of, text_in, words};
ghost use Rattle.cron_crontab.specs.Views.{expression_view, fault_view, table_view};

use crate::faults::Fault;
use crate::field::{Field, is_same_name};
use crate::fields::read_five;
use crate::schedules::Schedules;
use crate::words::{next_word, word_behind_break};

const REBOOT: &str = "@reboot";

/// The nicknames other than `@reboot`, with the expressions that they stand for.
const NICKNAMES: [(&str, &str); 7] = [
    ("@yearly", "0 0 1 1 *"),
    ("@annually", "0 0 1 1 *"),
    ("@monthly", "0 0 1 * *"),
    ("@weekly", "0 0 * * 0"),
    ("@daily", "0 0 * * *"),
    ("@midnight", "0 0 * * *"),
    ("@hourly", "0 * * * *"),
];

/// What an expression means.
#[derive(Drop)]
pub enum Expression {
    /// One schedule, or two: the entry fires when either does.
    Fires(Schedules),
    /// `@reboot`: a run when the machine starts, and at no other time.
    Reboot,
}

/// The text that `table` has for the name `word`, or `None` if it has none.
fn text_beside<'t>(table: &[(&'t str, &'t str)], word: &str) -> Option<&'t str>
    ensures { option_map (λ text. text.now) result ≡ text_in (table_view table.now) word.now }
{
    for (name, text) in table {
        if word == *name {
            return Some(text);
        }
    }
    None
}

/// Returns true if `table` has the name `word`, in any case of its letters.
fn has_word(table: &[(&str, &str)], word: &str) -> bool
    ensures { result ≡ has_word (table_view table.now) word.now }
{
    for (name, _) in table {
        if is_same_name(name, word) {
            return true;
        }
    }
    false
}

/// The expression that the nickname `word` stands for, or `None` if `NICKNAMES` doesn't have it.
fn expansion(word: &str) -> Option<&'static str>
    ensures { option_map (λ text. text.now) result ≡ text_in nicknames word.now }
{
    text_beside(&NICKNAMES, word)
}

/// Returns true if `word` is a nickname in any case of its letters.
fn is_capital(word: &str) -> bool
    ensures { result ≡ is_capital word.now }
{
    is_same_name(REBOOT, word) || has_word(&NICKNAMES, word)
}

/// Reads five fields.
fn read_fields(text: &str) -> Result<Expression, Fault<'_>>
    ensures { MatchResult result
        (λ e. meant_by (words text.now) ≡ Ok (expression_view e))
        (λ fault. meant_by (words text.now) ≡ Err (fault_view fault)) }
{
    let mut fault = Fault::NoField(Field::Minute);
    match read_five(text, &mut fault) {
        Some(five) => Ok(Expression::Fires(five.schedules())),
        None => Err(fault),
    }
}

/// Reads a word that begins with `@`.
fn read_nickname(word: &str) -> Result<Expression, Fault<'_>>
    ensures { MatchResult result
        (λ e. nickname_of word.now ≡ Ok (expression_view e))
        (λ fault. nickname_of word.now ≡ Err (fault_view fault)) }
{
    if word == REBOOT {
        return Ok(Expression::Reboot);
    }
    match expansion(word) {
        Some(text) => read_fields(text),
        None if is_capital(word) => Err(Fault::CapitalNickname(word)),
        None => Err(Fault::NoNickname(word)),
    }
}

/// Returns true if `word` begins with `@`, as nicknames do.
pub fn begins_with_at(word: &str) -> bool
    ensures { result ≡ begins_with_at word.now }
{
    match word.as_bytes().first() {
        Some(byte) => *byte == b'@',
        None => false,
    }
}

/// Reads the words of `text`. Line breaks between them count as white space.
fn read_words(text: &str) -> Result<Expression, Fault<'_>>
    ensures { MatchResult result
        (λ e. outcome_of (words text.now) ≡ Ok (expression_view e))
        (λ fault. outcome_of (words text.now) ≡ Err (fault_view fault)) }
{
    let Some((word, rest)) = next_word(text) else {
        return Err(Fault::NoField(Field::Minute));
    };
    if !begins_with_at(word) {
        return read_fields(text);
    }
    let read = read_nickname(word)?;
    if let Some((other, _)) = next_word(rest) {
        return Err(Fault::BehindNickname(other));
    }
    Ok(read)
}

/// Reads an expression of a crontab: five fields or a nickname, on one line, with spaces and tabs
/// around and between them. Line breaks are allowed only at its end.
pub fn read(text: &str) -> Result<Expression, Fault<'_>>
    ensures { MatchResult result
        (λ e. Means text.now (expression_view e)) (λ fault. Refuses text.now (fault_view fault)) }
{
    match word_behind_break(text) {
        Some(word) => Err(Fault::SecondLine(word)),
        None => read_words(text),
    }
}
