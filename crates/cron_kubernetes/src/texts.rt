//! Whole texts: five fields, or a descriptor.

ghost use Rattle.std.specs.Prelude.{◌≡◌, MatchResult, Ok, Err, codes};
ghost use Rattle.std.specs.Option.{option_map};
ghost use Rattle.cron_crontab.specs.Crontab.{nicknames, text_in, words};
ghost use Rattle.cron_crontab.specs.Views.{table_view};
ghost use Rattle.cron_kubernetes.specs.Kubernetes.{Means, Refuses, begins_with, begins_with_zone, descriptor_of, fields_of, meant_by};
ghost use Rattle.cron_kubernetes.specs.Views.{expression_view, fault_view};

use crate::durations::is_duration;
use crate::faults::Fault;
use crate::fields::read_five;
use crate::schedules::Schedules;
use cron_crontab::{Field, begins_with_at, next_word};

/// The descriptors other than `@every`, with the fields that they stand for.
const DESCRIPTORS: [(&str, &str); 7] = [
    ("@yearly", "0 0 1 1 *"),
    ("@annually", "0 0 1 1 *"),
    ("@monthly", "0 0 1 * *"),
    ("@weekly", "0 0 * * 0"),
    ("@daily", "0 0 * * *"),
    ("@midnight", "0 0 * * *"),
    ("@hourly", "0 * * * *"),
];

/// What a schedule of a CronJob means.
#[derive(Drop)]
pub enum Expression<'a> {
    /// One schedule, or two: the job runs when either fires.
    Fires(Schedules),
    /// `@every` with this duration: the job runs again after its whole seconds, or after one second
    /// if it is shorter. It has no fires here, since they count from the last run.
    Every(&'a str),
}

// The text that `table` has for the name `word`, or `None` if it has none.
fn text_beside<'t>(table: &[(&'t str, &'t str)], word: &str) -> Option<&'t str>
    ensures { option_map (λ text. text.now) result ≡ text_in (table_view table.now) word.now }
{
    for (name, text) in table {
        if word == *name {
            return Some(text);
        }
    }
    None
}

// The fields that the descriptor `text` stands for, or `None` if `DESCRIPTORS` doesn't have it.
fn expansion(text: &str) -> Option<&'static str>
    ensures { option_map (λ fields. fields.now) result ≡ text_in nicknames text.now }
{
    text_beside(&DESCRIPTORS, text)
}

// Returns true if `word` begins as the name of a zone.
fn begins_with_zone(word: &str) -> bool
    ensures { result ≡ begins_with_zone word.now }
{
    word.as_bytes().starts_with(b"TZ=".as_slice())
        || word.as_bytes().starts_with(b"CRON_TZ=".as_slice())
}

// Returns true if `text` begins with `@every` and a space.
fn begins_with_every(text: &str) -> bool
    ensures { result ≡ begins_with (codes "@every ") text.now }
{
    text.as_bytes().starts_with(b"@every ".as_slice())
}

// Reads five fields.
fn read_five_fields(text: &str) -> Result<Expression<'_>, Fault<'_>>
    ensures { MatchResult result
        (λ e. meant_by (words text.now) ≡ Ok (expression_view e))
        (λ fault. meant_by (words text.now) ≡ Err (fault_view fault)) }
{
    let five = read_five(text)?;
    Ok(Expression::Fires(five.schedules()))
}

// Reads five fields. The first must not be a zone.
fn read_fields(text: &str) -> Result<Expression<'_>, Fault<'_>>
    ensures { MatchResult result
        (λ e. fields_of (words text.now) ≡ Ok (expression_view e))
        (λ fault. fields_of (words text.now) ≡ Err (fault_view fault)) }
{
    let Some((word, _)) = next_word(text) else {
        return Err(Fault::NoField(Field::Minute));
    };
    if begins_with_zone(word) {
        return Err(Fault::Zone(word));
    }
    read_five_fields(text)
}

// Reads a text that begins with `@`.
fn read_descriptor(text: &str) -> Result<Expression<'_>, Fault<'_>>
    ensures { MatchResult result
        (λ e. descriptor_of text.now (text_in nicknames text.now) ≡ Ok (expression_view e))
        (λ fault. descriptor_of text.now (text_in nicknames text.now) ≡ Err (fault_view fault)) }
{
    if let Some(fields) = expansion(text) {
        return read_five_fields(fields);
    }
    if !begins_with_every(text) {
        return Err(Fault::NoDescriptor(text));
    }
    let duration = &text[7..];
    if is_duration(duration) {
        Ok(Expression::Every(duration))
    } else {
        Err(Fault::NoDuration(duration))
    }
}

/// Reads the schedule of a CronJob: five fields with white space around and between them, or a
/// descriptor alone.
pub fn read(text: &str) -> Result<Expression<'_>, Fault<'_>>
    ensures { MatchResult result
        (λ e. Means text.now (expression_view e)) (λ fault. Refuses text.now (fault_view fault)) }
{
    if begins_with_at(text) {
        read_descriptor(text)
    } else {
        read_fields(text)
    }
}
