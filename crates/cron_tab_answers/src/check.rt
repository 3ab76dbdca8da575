//! A check of a crontab's lines: which are refused and why, and what in the others is probably a
//! mistake.

ghost use Rattle.std.specs.Prelude.{◌≡◌, ◌&&◌, ◌++◌, IfOk, OnErr, OnOk, false, take};
ghost use Rattle.std.specs.Str.Lossy.{utf8_valid_len};
ghost use Rattle.std.specs.String.{string_bytes};
ghost use Rattle.cron_checking.specs.Puts.{Puts};
ghost use Rattle.cron_controls.specs.Controls.{shown_by};
ghost use Rattle.cron_crontab.specs.Views.{expression_view};
ghost use Rattle.cron_tab_lines.specs.Files.{file_lines};
ghost use Rattle.cron_tab_lines.specs.Views.{file_line_view};
ghost use Rattle.cron_tab_answers.specs.Checks.{Checks, TellsFound, TellsIfWanted, TellsLine, TellsOfEntry, TellsOfFields, TellsOfLine, is_refused, is_told, is_unended, refusal_line, refuses, unended_line, zone_line};
ghost use Rattle.cron_tab_lines.specs.Zones.{names_no_zone};
ghost use Rattle.cron_replies.specs.Inner.Telling.{AppendsTold};
ghost use Rattle.cron_tab_answers.specs.Inner.Checks.{TellsFront, end_of};
ghost use Rattle.cron_replies.specs.Statuses.{is_write_failure};
ghost use Rattle.cron_writer.specs.Calls.{AreWritesFlushed};
ghost use Rattle.cron_writer.specs.Watching.{has_failed, writer_of};

use cron_checking::output::put;
use cron_controls::{Controls, shown};
use cron_crontab::Expression;
use cron_replies::status::{Status, finish};
use cron_tab_context::Found;
use cron_tab_lines::{Crontab, FileLine, Line, Lines, NamedZone, names_no_zone};
use cron_tab_warnings::{LINE_WARNINGS, LineWarning, WARNINGS, text_of, warns, warns_line};
use cron_writer::gathered::Gathered;
use cron_writer::watchable::Watchable;
use cron_writer::watched::Watched;
use std::alloc::{AllocError, Global};

/// What a check reports, and the kind of crontab.
#[derive(Clone, Copy)]
pub struct Wanted<'a> {
    /// Whether the crontab is a user's or the system's, whose entries name a user.
    pub kind: Crontab,
    /// The text in front of each line's number, such as the file's name and a colon. It may be
    /// empty.
    pub front: &'a str,
    /// Whether warnings are written too.
    pub warn: bool,
    /// The warnings that were found by what is around the entries.
    pub found: &'a [Found],
    /// Whether a last line without a line feed is refused, since it may be half written. If not, a
    /// note is written for it.
    pub needs_feed: bool,
    /// How control characters of the file are written.
    pub controls: Controls,
    /// The zones that `CRON_TZ` may name.
    pub names: &'a [NamedZone<'a>],
}

// Appends that the `CRON_TZ` of a line names no zone, if so. Returns true in that case.
fn tell_zone(
    wanted: &Wanted<'_>,
    line: &FileLine<'_>,
    text: &mut String,
) -> Result<bool, AllocError>
    ensures refused { IfOk result (λ refused. refused
        ≡ names_no_zone wanted.now.names.now (file_line_view line.now).outcome) }
    ensures told { OnOk result (string_bytes text.new
        ≡ string_bytes text.old ++ zone_line wanted.now.front.now line.now.number
        (names_no_zone wanted.now.names.now (file_line_view line.now).outcome)) }
{
    let (front, number) = (wanted.front, line.number);
    let refused = names_no_zone(wanted.names, line);
    if refused {
        writeln!(
            text,
            "{front}{number}: CRON_TZ names no zone, and the entries below it are left out"
        )?;
    }
    Ok(refused)
}

// Appends why a line is refused, if it is. Returns true in that case.
fn tell_refusal(
    wanted: &Wanted<'_>,
    line: &FileLine<'_>,
    text: &mut String,
) -> Result<bool, AllocError>
    ensures refused { IfOk result (λ refused. refused
        ≡ is_refused wanted.now.names.now (file_line_view line.now).outcome) }
    ensures told { OnOk result (string_bytes text.new
        ≡ string_bytes text.old ++ refusal_line wanted.now.front.now wanted.now.names.now
        line.now.number (file_line_view line.now).outcome) }
{
    let (front, number) = (wanted.front, line.number);
    match &line.read {
        Ok(_) => tell_zone(wanted, line, text),
        Err(refusal) => {
            writeln!(text, "{front}{number}: {refusal}")?;
            Ok(true)
        }
    }
}

// Appends that no line feed ends the last line, if so. Returns true if the line is refused for it.
fn tell_unended(
    wanted: &Wanted<'_>,
    line: &FileLine<'_>,
    text: &mut String,
) -> Result<bool, AllocError>
    ensures refused { IfOk result (λ refused. refused
        ≡ (wanted.now.needs_feed && is_unended (file_line_view line.now))) }
    ensures told { OnOk result (string_bytes text.new
        ≡ string_bytes text.old ++ unended_line wanted.now.needs_feed wanted.now.front.now
        line.now.number (is_unended (file_line_view line.now))) }
{
    let (front, number) = (wanted.front, line.number);
    let warning = LineWarning::NoLineFeed;
    if !warns_line(warning, line) {
        return Ok(false);
    }
    if wanted.needs_feed {
        writeln!(text, "{front}{number}: {warning}")?;
    } else {
        writeln!(text, "{front}{number}: note: {warning}")?;
    }
    Ok(wanted.needs_feed)
}

// Appends the warnings that apply to an expression. The text `fields` begins with it.
fn tell_warnings(
    wanted: &Wanted<'_>,
    number: usize,
    fields: &str,
    expression: &Expression,
    text: &mut String,
) -> Result<(), AllocError>
    ensures { OnOk result (AppendsTold
        (TellsOfFields wanted.now number fields.now (expression_view expression.now))
        (string_bytes text.old) (string_bytes text.new)) }
{
    let front = wanted.front;
    for warning in &WARNINGS {
        if warns(wanted.kind, *warning, fields, expression) {
            writeln!(text, "{front}{number}: warning: {warning}")?;
        }
    }
    Ok(())
}

// Whether a warning on a line itself is written. A missing line feed is reported by `tell_unended`
// instead.
fn is_told(warning: LineWarning, line: &FileLine<'_>) -> bool
    ensures { result ≡ is_told warning (file_line_view line.now) }
{
    match warning {
        LineWarning::NoLineFeed => false,
        _ => warns_line(warning, line),
    }
}

// Appends the warnings that apply to a line itself.
fn tell_line_warnings(front: &str, line: &FileLine<'_>, text: &mut String) -> Result<(), AllocError>
    ensures { OnOk result (AppendsTold (TellsOfLine front.now (file_line_view line.now))
        (string_bytes text.old) (string_bytes text.new)) }
{
    for warning in &LINE_WARNINGS {
        if is_told(*warning, line) {
            let number = line.number;
            writeln!(text, "{front}{number}: warning: {warning}")?;
        }
    }
    Ok(())
}

// Appends the warnings that apply to the expression of a line's entry, if the line is an entry.
fn tell_entry_warnings(
    wanted: &Wanted<'_>,
    line: &FileLine<'_>,
    text: &mut String,
) -> Result<(), AllocError>
    ensures { OnOk result (AppendsTold
        (TellsOfEntry wanted.now line.now.number (file_line_view line.now).outcome
        (take (utf8_valid_len line.now.bytes.now) line.now.bytes.now))
        (string_bytes text.old) (string_bytes text.new)) }
{
    let Ok(read) = &line.read else {
        return Ok(());
    };
    let Line::Entry(entry) = read else {
        return Ok(());
    };
    let fields = text_of(line.bytes);
    tell_warnings(wanted, line.number, fields, &entry.expression, text)?;
    Ok(())
}

// Appends the warnings that were found about the entry in the line with this number.
fn tell_found(wanted: &Wanted<'_>, number: usize, text: &mut String) -> Result<(), AllocError>
    ensures { OnOk result (AppendsTold (TellsFound wanted.now number)
        (string_bytes text.old) (string_bytes text.new)) }
{
    let front = wanted.front;
    for found in wanted.found {
        if found.line == number {
            let warning = found.warning;
            writeln!(text, "{front}{number}: warning: {warning}")?;
        }
    }
    Ok(())
}

// Appends the warnings that apply to a line, if warnings are wanted.
fn tell_if_wanted(
    wanted: &Wanted<'_>,
    line: &FileLine<'_>,
    text: &mut String,
) -> Result<(), AllocError>
    ensures { OnOk result (AppendsTold
        (TellsIfWanted wanted.now.warn wanted.now (file_line_view line.now))
        (string_bytes text.old) (string_bytes text.new)) }
{
    if !wanted.warn {
        return Ok(());
    }
    tell_entry_warnings(wanted, line, text)?;
    tell_line_warnings(wanted.front, line, text)?;
    tell_found(wanted, line.number, text)?;
    Ok(())
}

// Replaces `text` by the report on a line. Returns true if the line is refused.
fn tell_line(
    wanted: &Wanted<'_>,
    line: &FileLine<'_>,
    text: &mut String,
) -> Result<bool, AllocError>
    ensures refused { IfOk result (λ refused. refused
        ≡ refuses wanted.now (file_line_view line.now)) }
    ensures told { OnOk result
        (TellsLine wanted.now (file_line_view line.now) (string_bytes text.new)) }
{
    text.clear();
    let refused = tell_refusal(wanted, line, text)?;
    let unended = tell_unended(wanted, line, text)?;
    tell_if_wanted(wanted, line, text)?;
    Ok(refused || unended)
}

// Gathers `text`, the report on a line, with control characters as `controls` says. If memory runs
// out, nothing of it is gathered.
fn put_told<W: Watchable>(
    alloc: Global,
    controls: Controls,
    text: &[u8],
    gathered: &mut Gathered,
    out: &mut Watched<W>,
) -> Result<(), AllocError>
    ensures ok { OnOk result (Puts W.contents W.writes
        gathered.old out.old gathered.new out.new (shown_by controls text.now)) }
    ensures err { OnErr result ((gathered.new ≡ gathered.old) × (out.new ≡ out.old)) }
{
    match controls {
        Controls::Raw => put(text, gathered, out),
        Controls::Shown => {
            let made = shown(alloc, text)?;
            put(made.as_slice(), gathered, out);
        }
    }
    Ok(())
}

// Reports on one line after another, until a write fails. Returns true if a line was refused.
fn tell_lines<W: Watchable>(
    alloc: Global,
    wanted: &Wanted<'_>,
    lines: Lines<'_>,
    gathered: &mut Gathered,
    out: &mut Watched<W>,
) -> Result<bool, AllocError>
    ensures { TellsFront wanted.now lines.entry W.contents W.writes
        (gathered.old, out.old) (gathered.new, out.new) result }
{
    let mut text = String::new(alloc);
    let mut refused = false;
    for line in lines {
        let bad = tell_line(wanted, &line, &mut text)?;
        refused |= bad;
        put_told(alloc, wanted.controls, text.as_bytes(), gathered, out)?;
        if out.has_failed() {
            return Ok(refused);
        }
    }
    Ok(refused)
}

// The status of a check if no write fails. `told` is whether a line was refused, or that memory ran
// out.
fn end_of(told: Result<bool, AllocError>) -> Status
    ensures { result ≡ end_of told }
{
    match told {
        Ok(true) => Status::No,
        Ok(false) => Status::Done,
        Err(_) => Status::Unreadable,
    }
}

/// Checks the lines of a crontab's file. In the order of the lines it writes which are refused and
/// why, whether the last one lacks a line feed, and the warnings if these are wanted. The status is
/// `No` if a line is refused. It is `Unreadable` if memory runs out for the report on a line: the
/// lines before it are reported then. The report is handed to the writer many lines at a time, and
/// its rest at the end, before the flush. No call of the writer may have failed before.
pub fn check<W: Watchable>(
    alloc: Global,
    wanted: &Wanted<'_>,
    file: &[u8],
    out: &mut Watched<W>,
) -> Status
    requires { has_failed out.old ≡ false }
    ensures checks { Checks wanted.now (file_lines wanted.now.kind file.now)
        (W.contents (writer_of out.old)) (W.contents (writer_of out.new)) result }
    ensures mark { has_failed out.new ≡ is_write_failure result }
    ensures calls { AreWritesFlushed W.writes W.flushes
        (writer_of out.old) (has_failed out.old) (writer_of out.new) (has_failed out.new) }
{
    let mut gathered = Gathered::new();
    let lines = Lines::of(wanted.kind, file);
    let end = end_of(tell_lines(alloc, wanted, lines, &mut gathered, out));
    gathered.send(out);
    finish(out, end)
}
