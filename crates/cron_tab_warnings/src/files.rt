//! Lines of files that another cron reads differently, or refuses.

ghost use Rattle.std.specs.Prelude.{◌≡◌, ◌==◌, ◌<◌, ◌+◌, nat_le, length};
ghost use Rattle.cron_tab_lines.specs.Bytes.{is_white};
ghost use Rattle.cron_tab_lines.specs.Views.{file_line_view, outcome_view, entry_view};
ghost use Rattle.cron_tab_warnings.specs.Files.{entry_warns, has_content, has_dash, has_two_backslashes, is_cut, is_wrapped, is_zone, keeps_return, last_byte, loses_ends, task_len, warns_entry, warns_line, AllStandIn};

use cron_tab_lines::{Entry, FileLine, Line, Refusal, Setting};

/// The length in bytes from which Debian's cron refuses a command.
const LONG: usize = 999;

/// The length in bytes of a name and a value from which Debian's cron cuts them.
const LONG_SETTING: usize = 998;

/// A warning of a file's line.
#[derive(Clone, Copy, Debug, PartialEq, Eq)]
pub enum LineWarning {
    /// The line sets `CRON_TZ`, which Debian's cron ignores.
    IgnoredZone,
    /// The line's command, with the input after a percent sign, has 999 bytes or more: Debian's
    /// cron refuses it.
    LongCommand,
    /// The line's command, or the input after a percent sign, ends in a carriage return. Another
    /// system writes one in front of the line feed, and here it stays part of the command or the
    /// input.
    ReturnAtEnd,
    /// The line's command has two backslashes in a row. Debian's cron reads them as one.
    TwoBackslashes,
    /// The line's command begins with `-`, which cronie reads as an option.
    DashInFront,
    /// A `%` that no backslash guards ends the line's command, and what follows is its input:
    /// `date +%Y`.
    PercentSign,
    /// The value of the line's setting is quoted, and ends in white space or has a second pair of
    /// quotation marks around it. Debian's cron removes those.
    ShortenedValue,
    /// The name and the value of the line's setting, without the `=`, have 998 bytes or more:
    /// Debian's cron cuts off the end.
    LongSetting,
    /// The line is line 10,001: Debian's cron refuses a file with more than 10,000 lines.
    ManyLines,
    /// The line is the last one, isn't blank and no comment, and has no line feed at its end:
    /// Debian's cron refuses the file, and cronie ignores the line.
    NoLineFeed,
}

/// All warnings of a file's line, each once.
pub const LINE_WARNINGS: [LineWarning; 10] = [
    LineWarning::IgnoredZone,
    LineWarning::LongCommand,
    LineWarning::ReturnAtEnd,
    LineWarning::TwoBackslashes,
    LineWarning::DashInFront,
    LineWarning::PercentSign,
    LineWarning::ShortenedValue,
    LineWarning::LongSetting,
    LineWarning::ManyLines,
    LineWarning::NoLineFeed,
];

/// Returns true if a command and its input, with the percent sign between, have 999 bytes or more.
fn is_long_task(entry: &Entry<'_>) -> bool
    ensures { result ≡ nat_le LONG (task_len (entry_view entry.now)) }
{
    match entry.input {
        Some(input) => input.len() >= LONG.saturating_sub(entry.command.len()).saturating_sub(1),
        None => entry.command.len() >= LONG,
    }
}

fn is_zone(read: &Result<Line<'_>, Refusal<'_>>) -> bool
    ensures { result ≡ is_zone (outcome_view read.now) }
{
    matches!(read, Ok(Line::Zone(_)))
}

fn ends_in(bytes: &[u8], byte: u8) -> bool
    requires { 0 < byte }
    ensures { result ≡ (last_byte bytes.now == byte) }
{
    match bytes.last() {
        Some(last) => *last == byte,
        None => false,
    }
}

fn keeps_return(entry: &Entry<'_>) -> bool
    ensures { result ≡ keeps_return (entry_view entry.now) }
{
    match entry.input {
        Some(input) => ends_in(input, b'\r'),
        None => ends_in(entry.command, b'\r'),
    }
}

fn has_two_backslashes(command: &[u8]) -> bool
    ensures { result ≡ has_two_backslashes 0 command.now }
{
    let mut before = 0;
    for byte in command {
        if before == b'\\' && *byte == b'\\' {
            return true;
        }
        before = *byte;
    }
    false
}

fn has_dash(command: &[u8]) -> bool
    ensures { result ≡ has_dash command.now }
{
    match command.first() {
        Some(byte) => *byte == b'-',
        None => false,
    }
}

/// Returns true if `warning` is one for entries and applies to `entry`.
fn warns_entry(warning: LineWarning, entry: &Entry<'_>) -> bool
    ensures { result ≡ warns_entry warning (entry_view entry.now) }
{
    match warning {
        LineWarning::LongCommand => is_long_task(entry),
        LineWarning::ReturnAtEnd => keeps_return(entry),
        LineWarning::TwoBackslashes => has_two_backslashes(entry.command),
        LineWarning::DashInFront => has_dash(entry.command),
        LineWarning::PercentSign => entry.input.is_some(),
        _ => false,
    }
}

/// Returns true if a line was read as an entry, and `warning` is one for entries and applies to it.
fn entry_warns(warning: LineWarning, read: &Result<Line<'_>, Refusal<'_>>) -> bool
    ensures { result ≡ entry_warns warning (outcome_view read.now) }
{
    match read {
        Ok(Line::Entry(entry)) => warns_entry(warning, entry),
        _ => false,
    }
}

fn ends_white(value: &[u8]) -> bool
    ensures { result ≡ is_white (last_byte value.now) }
{
    match value.last() {
        Some(byte) => *byte == b' ' || (9 <= *byte && *byte <= 13),
        None => false,
    }
}

/// Returns true if a value begins and ends with the same quotation mark.
fn is_wrapped(value: &[u8]) -> bool
    ensures { result ≡ is_wrapped value.now }
{
    if value.len() < 2 {
        return false;
    }
    let first = value[0];
    (first == b'\'' || first == b'"') && value[value.len() - 1] == first
}

/// Returns true if a name and a value have 998 bytes or more together.
fn is_long_setting(setting: &Setting<'_>) -> bool
    ensures { result
        ≡ nat_le LONG_SETTING (length setting.now.name.now + length setting.now.value.now) }
{
    setting.value.len() >= LONG_SETTING.saturating_sub(setting.name.len())
}

fn is_cut(read: &Result<Line<'_>, Refusal<'_>>) -> bool
    ensures { result ≡ is_cut (outcome_view read.now) }
{
    match read {
        Ok(Line::Setting(setting)) => is_long_setting(setting),
        _ => false,
    }
}

fn loses_ends(read: &Result<Line<'_>, Refusal<'_>>) -> bool
    ensures { result ≡ loses_ends (outcome_view read.now) }
{
    match read {
        Ok(Line::Setting(setting)) => ends_white(setting.value) || is_wrapped(setting.value),
        _ => false,
    }
}

/// Returns true if a line isn't blank, and no comment.
fn has_content(read: &Result<Line<'_>, Refusal<'_>>) -> bool
    ensures { result ≡ has_content (outcome_view read.now) }
{
    match read {
        Ok(Line::Blank) => false,
        Ok(Line::Comment) => false,
        _ => true,
    }
}

/// Returns true if `warning` applies to the file's line `line`.
pub fn warns_line(warning: LineWarning, line: &FileLine<'_>) -> bool
    ensures { result ≡ warns_line warning (file_line_view line.now) }
{
    match warning {
        LineWarning::IgnoredZone => is_zone(&line.read),
        LineWarning::ShortenedValue => loses_ends(&line.read),
        LineWarning::LongSetting => is_cut(&line.read),
        LineWarning::ManyLines => line.number == 10_001,
        LineWarning::NoLineFeed => !ends_in(line.bytes, b'\n') && has_content(&line.read),
        _ => entry_warns(warning, &line.read),
    }
}

/// Each warning of a file's line is in `LINE_WARNINGS`.
pub fn all_line_warnings_are_listed()
    ensures { AllStandIn LINE_WARNINGS }
{}
