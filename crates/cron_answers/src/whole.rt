//! Expressions, and lines of a user's crontab in their place: the command is left out.

ghost use Rattle.std.specs.Prelude.{◌≡◌, MatchOption, MatchResult};
ghost use Rattle.std.specs.List.{list_all};
ghost use Rattle.cron_crontab.specs.Views.{expression_view};
ghost use Rattle.cron_answers.specs.Subjects.{IsNoWhole, IsWhole};
ghost use Rattle.cron_answers.specs.Wholes.{begins_as_field, is_in_field, is_like_field, is_sign, may_be_field, IsNoEntry, IsOfEntry, IsOfMeaning, IsReadWhole, IsRefusedWhole};

use crate::expression::{Expression, clock_changes, read_as};
use crate::refusal::Refusal;
use crate::subject::Subject;
use crate::trouble::{Trouble, zone_word};
use cron_crontab::Expression as TabExpression;
use cron_tab_lines::{Crontab, Line, read_line};
use cron_zones::files::ZoneFiles;
use cron_zones::open::{Places, open};
use std::alloc::Global;

// Whether a byte is a digit or a sign of fields.
fn is_sign(byte: u8) -> bool
    ensures { result ≡ is_sign byte }
{
    byte.is_ascii_digit() || matches!(byte, b',' | b'-' | b'*' | b'/' | b'?')
}

// Whether the first word of a command has only digits and signs of fields. Then it is rather a
// sixth field.
fn begins_as_field(command: &[u8]) -> bool
    ensures { result ≡ begins_as_field command.now }
{
    for byte in command {
        if !is_sign(*byte) {
            return matches!(*byte, b' ' | b'\t');
        }
    }
    true
}

// Whether a byte is one of fields in some dialect: a letter, a digit or a sign.
fn is_in_field(byte: u8) -> bool
    ensures { result ≡ is_in_field byte }
{
    byte.is_ascii_alphabetic() || is_sign(byte) || byte == b'#'
}

fn are_in_field(command: &[u8]) -> bool
    ensures { result ≡ list_all is_in_field command.now }
{
    command.iter().all(|byte| is_in_field(*byte))
}

// Whether a command is one word that may be a field, perhaps with a name that is misspelt.
fn is_like_field(command: &[u8]) -> bool
    ensures { result ≡ is_like_field command.now }
{
    !command.starts_with(b"/".as_slice()) && are_in_field(command)
}

// Whether a command may be a sixth field.
fn may_be_field(command: &[u8]) -> bool
    ensures { result ≡ may_be_field command.now }
{
    begins_as_field(command) || is_like_field(command)
}

// The expression of the entry in the line `text`, with the line's rule at clock changes.
fn expression_of(text: &str, entry: &TabExpression) -> Expression
    ensures { IsOfMeaning text.now (expression_view entry.now) result }
{
    match entry {
        TabExpression::Reboot => Expression::Reboot,
        TabExpression::Fires(schedules) => { Expression::Crontab(*schedules, clock_changes(text)) }
    }
}

// The expression of a line of a user's crontab. `None` if the text is no entry, or if its command
// may be a sixth field.
fn read_entry(text: &str) -> Option<Expression>
    ensures { MatchOption result (IsNoEntry text.now) (IsOfEntry text.now) }
{
    let line = read_line(Crontab::User, text.as_bytes());
    let Ok(Line::Entry(entry)) = &line else {
        return None;
    };
    if may_be_field(entry.command) {
        return None;
    }
    Some(expression_of(text, &entry.expression))
}

/// Reads an expression as `read_as` does. A text that is none may be a line of a user's crontab,
/// with an entry. `Err` says why the text is no expression.
pub fn read_whole(quartz: bool, text: &str) -> Result<Expression, Refusal<'_>>
    ensures { MatchResult result (IsReadWhole quartz text.now) (IsRefusedWhole quartz text.now) }
{
    let refusal = match read_as(quartz, text) {
        Ok(expression) => return Ok(expression),
        Err(refusal) => refusal,
    };
    if quartz {
        return Err(refusal);
    }
    match read_entry(text) {
        Some(expression) => Ok(expression),
        None => Err(refusal),
    }
}

/// Reads the expression as `read_whole` does, and opens the zone. `Err` has the first of the two
/// that fails.
pub(crate) fn whole_subject_of<'a, F: ZoneFiles>(
    alloc: Global,
    quartz: bool,
    text: &'a str,
    zone: &'a str,
    places: &Places<'a>,
    files: &mut F,
) -> Result<Subject<'a>, Trouble<'a>>
    ensures { MatchResult result
        (λ subject. IsWhole F.reads places.now quartz text.now zone.now
        files.old subject.expression subject.zone files.new)
        (λ trouble. IsNoWhole F.reads places.now quartz text.now zone.now
        files.old trouble files.new) }
{
    let expression = match read_whole(quartz, text) {
        Ok(expression) => expression,
        Err(refusal) => return Err(Trouble::Expression(text, refusal)),
    };
    match open(alloc, zone, places, files) {
        Ok(zone) => Ok(Subject { expression, zone }),
        Err(error) => Err(Trouble::Zone(zone_word(zone, places), error)),
    }
}
