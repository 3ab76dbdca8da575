//! Reads one line: blank, a comment, a setting, the value of `CRON_TZ`, or an entry.

ghost use Rattle.std.specs.Prelude.{◌≡◌, ◌==◌, Ok, Err, MatchResult};
ghost use Rattle.std.specs.List.{list_any};
ghost use Rattle.cron_tab_lines.specs.Entries.{entry_of};
ghost use Rattle.cron_tab_lines.specs.Lines.{IsLine, IsRefused, if_no_setting, no_setting, setting_of, text_outcome, without_last};
ghost use Rattle.cron_tab_lines.specs.Views.{line_view, refusal_view};

use crate::bytes::{Class, behind};
use crate::entries::read_entry;
use crate::kinds::{Crontab, Line, Setting};
use crate::refusals::Refusal;
use crate::settings::{read_name, read_value};

fn has_byte(line: &[u8], sought: u8) -> bool
    ensures { result ≡ list_any (λ c. c == sought) line.now }
{
    for byte in line {
        if *byte == sought {
            return true;
        }
    }
    false
}

fn without_last(line: &[u8]) -> &[u8]
    ensures { result.now ≡ without_last line.now }
{
    &line[..line.len().saturating_sub(1)]
}

/// Reads `text` as the value of the setting `name`. A setting of `CRON_TZ` is a `Line::Zone`.
fn read_setting<'a>(name: &'a [u8], text: &'a [u8]) -> Result<Line<'a>, Refusal<'a>>
    ensures { MatchResult result
        (λ l. setting_of name.now text.now ≡ Ok (line_view l))
        (λ r. setting_of name.now text.now ≡ Err (refusal_view r)) }
{
    match read_value(text) {
        Err(refusal) => Err(refusal),
        Ok(value) => {
            if name == b"CRON_TZ".as_slice() {
                return Ok(Line::Zone(value));
            }
            Ok(Line::Setting(Setting { name, value }))
        }
    }
}

/// Reads `text` as an entry, after it was refused as a setting for `refusal`. Returns `refusal` if
/// it is `NoValue`, or if `text` is no entry either.
fn read_no_setting<'a>(
    kind: Crontab,
    text: &'a [u8],
    refusal: Refusal<'a>,
) -> Result<Line<'a>, Refusal<'a>>
    ensures { MatchResult result
        (λ l. no_setting (refusal_view refusal.entry) (entry_of kind text.now) ≡ Ok (line_view l))
        (λ r. no_setting (refusal_view refusal.entry) (entry_of kind text.now)
        ≡ Err (refusal_view r)) }
{
    if let Refusal::NoValue = refusal {
        return Err(Refusal::NoValue);
    }
    match read_entry(kind, text) {
        Ok(entry) => Ok(Line::Entry(entry)),
        Err(_) => Err(refusal),
    }
}

/// Reads the line `text`, which begins with `name` and `=`: as a setting, or else as an entry.
/// `value` is the text after the `=`.
fn read_named<'a>(
    kind: Crontab,
    text: &'a [u8],
    name: &'a [u8],
    value: &'a [u8],
) -> Result<Line<'a>, Refusal<'a>>
    ensures { MatchResult result
        (λ l. if_no_setting kind text.now (setting_of name.now value.now) ≡ Ok (line_view l))
        (λ r. if_no_setting kind text.now (setting_of name.now value.now) ≡ Err (refusal_view r)) }
{
    match read_setting(name, value) {
        Ok(line) => Ok(line),
        Err(refusal) => read_no_setting(kind, text, refusal),
    }
}

/// Reads a line without its leading spaces and tabs.
fn read_text(kind: Crontab, text: &[u8]) -> Result<Line<'_>, Refusal<'_>>
    ensures { MatchResult result
        (λ l. text_outcome kind text.now ≡ Ok (line_view l))
        (λ r. text_outcome kind text.now ≡ Err (refusal_view r)) }
{
    if text.is_empty() {
        return Ok(Line::Blank);
    }
    if text[0] == b'#' {
        return Ok(Line::Comment);
    }
    if text == b"\r".as_slice() {
        return Err(Refusal::LoneReturn);
    }
    if let Some((name, value)) = read_name(text) {
        return read_named(kind, text, name, value);
    }
    match read_entry(kind, text) {
        Ok(entry) => Ok(Line::Entry(entry)),
        Err(refusal) => Err(refusal),
    }
}

/// Reads a line, given without its line feed. A line feed before its last byte is refused.
pub fn read_line(kind: Crontab, line: &[u8]) -> Result<Line<'_>, Refusal<'_>>
    ensures { MatchResult result
        (λ l. IsLine kind line.now (line_view l)) (λ r. IsRefused kind line.now (refusal_view r)) }
{
    if has_byte(line, 0) {
        return Err(Refusal::Nul);
    }
    if has_byte(without_last(line), b'\n') {
        return Err(Refusal::SecondLine);
    }
    read_text(kind, behind(line, Class::Blank))
}
