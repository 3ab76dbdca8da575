//! Entries: five fields or a nickname, a user (only in system crontabs), a command, and perhaps its
//! input.

ghost use Rattle.std.specs.Prelude.{◌≡◌, ◌≤◌, ◌==◌, Ok, Err, MatchResult, length};
ghost use Rattle.std.specs.List.{list_all};
ghost use Rattle.cron_crontab.specs.Views.{expression_view};
ghost use Rattle.cron_tab_lines.specs.Bytes.{first, is_plain};
ghost use Rattle.cron_tab_lines.specs.Entries.{behind_fields, behind_words, entry_of, field_count, meaning_of, with_task, without_return};
ghost use Rattle.cron_tab_lines.specs.Views.{bytes_view, entry_view, refusal_view};

use crate::bytes::{Class, behind, cut, is_plain};
use crate::kinds::{Crontab, Entry};
use crate::percent::{before_percent, cut_task};
use crate::refusals::Refusal;
use cron_crontab::{Expression, read};
use std::str;

/// Returns `text` without the carriage return at its end, if it has one.
fn without_return(text: &[u8]) -> &[u8]
    ensures is { result.now ≡ without_return text.now }
    ensures shorter { length result.now ≤ length text.now }
{
    match text.last() {
        Some(byte) if *byte == b'\r' => &text[..text.len() - 1],
        _ => text,
    }
}

/// The number of words that say when an entry fires: 1 for a nickname, which begins with `@`, else
/// 5.
fn field_count(text: &[u8]) -> usize
    ensures { result ≡ field_count text.now }
{
    match text.first() {
        Some(byte) if *byte == b'@' => 1,
        _ => 5,
    }
}

/// The rest of `text` after `count` words and the blanks that follow each of them.
fn behind_words(text: &[u8], count: usize) -> &[u8]
    ensures is { result.now ≡ behind_words count text.now }
    ensures shorter { length result.now ≤ length text.now }
{
    let mut rest = text;
    for _place in 0..count {
        rest = behind(behind(rest, Class::Word), Class::Blank);
    }
    rest
}

fn are_plain(text: &[u8]) -> bool
    ensures { result ≡ list_all is_plain text.now }
{
    for byte in text {
        if !is_plain(*byte) {
            return false;
        }
    }
    true
}

/// Reads five fields, or a nickname.
fn read_fields(fields: &[u8]) -> Result<Expression, Refusal<'_>>
    ensures { MatchResult result
        (λ e. meaning_of fields.now ≡ Ok (expression_view e))
        (λ r. meaning_of fields.now ≡ Err (refusal_view r)) }
{
    if !are_plain(fields) {
        return Err(Refusal::StrangeByte);
    }
    match str::from_utf8(fields) {
        Ok(text) => match read(text) {
            Ok(expression) => Ok(expression),
            Err(fault) => Err(Refusal::Expression(fault)),
        },
        Err(_) => Err(Refusal::StrangeByte),
    }
}

/// Makes the entry of `expression` and `user`. Its command and its input are read from `whole`.
/// `task` is `whole` without the carriage return that may be at its end.
fn read_task<'a>(
    expression: Expression,
    user: Option<&'a [u8]>,
    task: &[u8],
    whole: &'a [u8],
) -> Result<Entry<'a>, Refusal<'a>>
    ensures { MatchResult result
        (λ e. with_task (expression_view expression) (bytes_view user.entry) task.now whole.now
        ≡ Ok (entry_view e))
        (λ r. with_task (expression_view expression) (bytes_view user.entry) task.now whole.now
        ≡ Err (refusal_view r)) }
{
    if task.is_empty() {
        return Err(Refusal::NoCommand);
    }
    let end = before_percent(whole);
    if end == 0 {
        return Err(Refusal::NoCommand);
    }
    let (command, input) = cut_task(whole, end);
    Ok(Entry {
        expression,
        user,
        command,
        input,
    })
}

/// Reads the part of an entry after its fields. `text` is the whole entry, and `core` is `text`
/// without a carriage return at its end. `rest` is the part of `core` after the fields.
fn read_behind<'a>(
    kind: Crontab,
    expression: Expression,
    text: &'a [u8],
    core: &'a [u8],
    rest: &'a [u8],
) -> Result<Entry<'a>, Refusal<'a>>
    requires rest { length rest.now ≤ length core.now }
    requires core { length core.now ≤ length text.now }
    ensures { MatchResult result
        (λ e. behind_fields kind (expression_view expression) text.now core.now rest.now
        ≡ Ok (entry_view e))
        (λ r. behind_fields kind (expression_view expression) text.now core.now rest.now
        ≡ Err (refusal_view r)) }
{
    match kind {
        Crontab::User => {
            let whole = &text[core.len() - rest.len()..];
            read_task(expression, None, rest, whole)
        }
        Crontab::System => {
            if rest.is_empty() {
                return Err(Refusal::NoUser);
            }
            let (user, _) = cut(rest, Class::Word);
            let task = behind_words(rest, 1);
            let whole = &text[core.len() - task.len()..];
            read_task(expression, Some(user), task, whole)
        }
    }
}

fn begins_with_star(text: &[u8]) -> bool
    ensures { result ≡ (first text.now == 42) }
{
    match text.first() {
        Some(byte) => *byte == b'*',
        None => false,
    }
}

/// Reads a line without its leading spaces and tabs as an entry, or returns why it is refused.
pub(crate) fn read_entry(kind: Crontab, text: &[u8]) -> Result<Entry<'_>, Refusal<'_>>
    ensures { MatchResult result
        (λ e. entry_of kind text.now ≡ Ok (entry_view e))
        (λ r. entry_of kind text.now ≡ Err (refusal_view r)) }
{
    let core = without_return(text);
    let rest = behind_words(core, field_count(core));
    match read_fields(&core[..core.len() - rest.len()]) {
        Err(refusal) => Err(refusal),
        Ok(expression) => {
            if begins_with_star(rest) {
                return Err(Refusal::SixthField);
            }
            read_behind(kind, expression, text, core, rest)
        }
    }
}
