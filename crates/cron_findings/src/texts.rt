//! Findings as lines of text.

ghost use Rattle.std.specs.Prelude.{◌≡◌, ◌++◌, IfOk, OnOk, option_map, string_bytes};
ghost use Rattle.std.specs.Fmt.{decimal};
ghost use Rattle.cron_findings.specs.Findings.{advice, advice_behind, hint_view, proposal, view};
ghost use Rattle.cron_findings.specs.Findings as findings;
ghost use Rattle.cron_findings.specs.Texts.{color, file_front, gcc_line, gcc_matter, gcc_place, hint_line, marks_line, plain_line, severity_front, severity_word, underlined_lines, written};

use crate::finding::{Finding, Hint, Severity};
use crate::places::{before, column, span};
use crate::shown::{push_blanks, push_in_line, push_marks};
use cron_controls::Controls;
use itoa::Buffer;
use std::alloc::{AllocError, Global};

// ---- hints

// Appends a hint: what it tells, and the text that it proposes, behind a colon.
fn push_advice(text: &mut String, hint: &Hint<'_>) -> Result<(), AllocError>
    ensures { OnOk result
        (string_bytes text.new ≡ string_bytes text.old ++ advice (hint_view hint.now)) }
{
    text.push_str(hint.told)?;
    if let Some(proposed) = hint.text {
        text.push_str(": ")?;
        text.push_str(proposed)?;
    }
    Ok(())
}

// Appends a hint behind a message, if there is one.
fn push_advice_behind(text: &mut String, hint: &Option<Hint<'_>>) -> Result<(), AllocError>
    ensures { OnOk result (string_bytes text.new
        ≡ string_bytes text.old ++ advice_behind (option_map hint_view hint.now)) }
{
    match hint {
        Some(hint) => {
            text.push_str("; ")?;
            push_advice(text, hint)
        }
        None => Ok(()),
    }
}

/// The message of a finding, with its hint.
pub(crate) fn told(alloc: Global, finding: &Finding<'_>) -> Result<String, AllocError>
    ensures { IfOk result (λ text. string_bytes text ≡ findings.told (view finding.now)) }
{
    let mut text = String::new(alloc);
    text.push_str(finding.message)?;
    push_advice_behind(&mut text, &finding.hint)?;
    Ok(text)
}

// ---- lines

/// The word of a severity.
pub(crate) fn severity_word(severity: Severity) -> &'static str
    ensures { result.now ≡ severity_word severity }
{
    match severity {
        Severity::Error => "error",
        Severity::Warning => "warning",
        Severity::Note => "note",
    }
}

fn severity_front(severity: Severity) -> &'static str
    ensures { result.now ≡ severity_front severity }
{
    match severity {
        Severity::Error => "",
        Severity::Warning => "warning: ",
        Severity::Note => "note: ",
    }
}

/// Appends a number in decimal digits.
pub(crate) fn push_number(text: &mut Vec<u8>, number: usize) -> Result<(), AllocError>
    ensures { OnOk result (text.new.items ≡ text.old.items ++ decimal number) }
{
    text.extend_from_slice(Buffer::new().format(number).as_bytes())
}

// Appends a text unchanged, or with control characters shown.
fn push_written(
    alloc: Global,
    text: &mut Vec<u8>,
    controls: Controls,
    bytes: &[u8],
) -> Result<(), AllocError>
    ensures { OnOk result (text.new.items ≡ text.old.items ++ written controls bytes.now) }
{
    match controls {
        Controls::Raw => text.extend_from_slice(bytes),
        Controls::Shown => push_in_line(alloc, text, bytes),
    }
}

// Appends the file's name and a colon, if it is to be named.
fn push_file_front(
    alloc: Global,
    text: &mut Vec<u8>,
    controls: Controls,
    named: bool,
    file: &str,
) -> Result<(), AllocError>
    ensures { OnOk result
        (text.new.items ≡ text.old.items ++ file_front controls named file.now) }
{
    if !named {
        return Ok(());
    }
    push_written(alloc, text, controls, file.as_bytes())?;
    text.push(b':')?;
    Ok(())
}

/// Appends `FILE:LINE: MESSAGE`, and a word in front of the message unless it is of an error.
pub(crate) fn push_plain(
    alloc: Global,
    text: &mut Vec<u8>,
    controls: Controls,
    named: bool,
    finding: &Finding<'_>,
) -> Result<(), AllocError>
    ensures { OnOk result
        (text.new.items ≡ text.old.items ++ plain_line controls named (view finding.now)) }
{
    push_file_front(alloc, text, controls, named, finding.file)?;
    push_number(text, finding.line)?;
    text.extend_from_slice(b": ")?;
    text.extend_from_slice(severity_front(finding.severity).as_bytes())?;
    push_written(alloc, text, controls, finding.message.as_bytes())?;
    text.push(b'\n')?;
    Ok(())
}

// Appends `FILE:LINE:COLUMN: `.
fn push_gcc_place(
    alloc: Global,
    text: &mut Vec<u8>,
    finding: &Finding<'_>,
) -> Result<(), AllocError>
    ensures { OnOk result (text.new.items ≡ text.old.items ++ gcc_place (view finding.now)) }
{
    push_in_line(alloc, text, finding.file.as_bytes())?;
    text.push(b':')?;
    push_number(text, finding.line)?;
    text.push(b':')?;
    push_number(text, column(finding))?;
    text.extend_from_slice(b": ")
}

/// Appends `FILE:LINE:COLUMN: error: MESSAGE [code]`.
pub(crate) fn push_gcc(
    alloc: Global,
    text: &mut Vec<u8>,
    finding: &Finding<'_>,
) -> Result<(), AllocError>
    ensures { OnOk result (text.new.items ≡ text.old.items ++ gcc_line (view finding.now)) }
{
    push_gcc_place(alloc, text, finding)?;
    text.extend_from_slice(severity_word(finding.severity).as_bytes())?;
    text.extend_from_slice(b": ")?;
    push_gcc_matter(alloc, text, finding)
}

// Appends the message with its hint, and the code.
fn push_gcc_matter(
    alloc: Global,
    text: &mut Vec<u8>,
    finding: &Finding<'_>,
) -> Result<(), AllocError>
    ensures { OnOk result (text.new.items ≡ text.old.items ++ gcc_matter (view finding.now)) }
{
    let told = told(alloc, finding)?;
    push_in_line(alloc, text, told.as_str().as_bytes())?;
    text.extend_from_slice(b" [")?;
    text.extend_from_slice(finding.code.as_bytes())?;
    text.extend_from_slice(b"]\n")
}

// ---- on a terminal

fn color(severity: Severity) -> &'static [u8]
    ensures { result.now ≡ color severity }
{
    match severity {
        Severity::Error => b"\x1b[31m",
        Severity::Warning => b"\x1b[33m",
        Severity::Note => b"\x1b[36m",
    }
}

// Appends the marks below a span, in the colour of the severity if that is wanted.
fn push_marks_line(
    alloc: Global,
    text: &mut Vec<u8>,
    colored: bool,
    severity: Severity,
    bytes: &[u8],
) -> Result<(), AllocError>
    ensures { OnOk result
        (text.new.items ≡ text.old.items ++ marks_line colored severity bytes.now) }
{
    if !colored {
        push_marks(alloc, text, bytes)?;
        return text.extend_from_slice(b"\n");
    }
    text.extend_from_slice(color(severity))?;
    push_marks(alloc, text, bytes)?;
    text.extend_from_slice(b"\x1b[0m\n")
}

// Appends a line with the hint, if there is one.
fn push_hint_line(
    alloc: Global,
    text: &mut Vec<u8>,
    hint: &Option<Hint<'_>>,
) -> Result<(), AllocError>
    ensures { OnOk result
        (text.new.items ≡ text.old.items ++ hint_line (option_map hint_view hint.now)) }
{
    let Some(hint) = hint else {
        return Ok(());
    };
    let mut words = String::new(alloc);
    push_advice(&mut words, hint)?;
    text.extend_from_slice(b"hint: ")?;
    push_in_line(alloc, text, words.as_str().as_bytes())?;
    text.extend_from_slice(b"\n")
}

/// Appends the message, the line, marks below its span, and the hint.
pub(crate) fn push_underlined(
    alloc: Global,
    text: &mut Vec<u8>,
    named: bool,
    colored: bool,
    finding: &Finding<'_>,
) -> Result<(), AllocError>
    ensures { OnOk result (text.new.items
        ≡ text.old.items ++ underlined_lines named colored (view finding.now)) }
{
    push_plain(alloc, text, Controls::Shown, named, finding)?;
    push_in_line(alloc, text, finding.bytes)?;
    text.extend_from_slice(b"\n")?;
    push_blanks(alloc, text, before(finding))?;
    push_marks_line(alloc, text, colored, finding.severity, span(finding))?;
    push_hint_line(alloc, text, &finding.hint)
}
