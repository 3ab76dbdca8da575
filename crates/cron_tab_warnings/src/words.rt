//! Words of a line, with white space between, and the fields of an entry among them.

ghost use Rattle.std.specs.Prelude.{◌≡◌};
ghost use Rattle.cron_tab_warnings.specs.Written.{field_word, has_fields, place, size, word_at};

use cron_crontab::{Field, begins_with_at, next_word};

/// The word number `place` of `text`, counted from 0. It is empty after the last word.
pub(crate) fn word_at(text: &str, place: usize) -> &str
    ensures { result.now ≡ word_at text.now place }
{
    let mut rest = text;
    for _before in 0..place {
        match next_word(rest) {
            Some((_, more)) => rest = more,
            None => return "",
        }
    }
    match next_word(rest) {
        Some((word, _)) => word,
        None => "",
    }
}

fn place(field: Field) -> usize
    ensures { result ≡ place field }
{
    match field {
        Field::Minute => 0,
        Field::Hour => 1,
        Field::DayOfMonth => 2,
        Field::Month => 3,
        Field::DayOfWeek => 4,
    }
}

/// The word of `text` at the position of `field`.
pub(crate) fn field_word(text: &str, field: Field) -> &str
    ensures { result.now ≡ field_word text.now field }
{
    word_at(text, place(field))
}

/// Returns true if the expression that `text` begins with has fields. A nickname, which begins with
/// `@`, has none.
pub(crate) fn has_fields(text: &str) -> bool
    ensures { result ≡ has_fields text.now }
{
    !begins_with_at(word_at(text, 0))
}

/// How many different numbers `field` has. In days of the week 0 and 7 are the same number.
pub(crate) fn size(field: Field) -> u32
    ensures { result ≡ size field }
{
    match field {
        Field::Minute => 60,
        Field::Hour => 24,
        Field::DayOfMonth => 31,
        Field::Month => 12,
        Field::DayOfWeek => 7,
    }
}
