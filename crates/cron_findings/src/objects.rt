//! Findings as objects of JSON.

ghost use Rattle.std.specs.Prelude.{◌≡◌, ◌++◌, [], IfOk, OnOk, option_map};
ghost use Rattle.cron_findings.specs.Findings.{hint_view, view};
ghost use Rattle.cron_findings.specs.Members as members;
ghost use Rattle.cron_findings.specs.Members.{Writes, bytes_member, hint_object, hint_tokens, matter_members, number_member, place_members, string_member, text_tokens};

use crate::finding::{Finding, Hint};
use crate::places::{column, end_column};
use crate::texts::severity_word;
use json::Writer;
use std::alloc::{AllocError, Global};

/// Writes a member with a text.
pub(crate) fn write_string(object: &mut Writer, name: &str, text: &str) -> Result<(), AllocError>
    ensures { OnOk result (Writes (string_member name.now text.now) object.old object.new) }
{
    object.key(name)?;
    object.string(text)
}

/// Writes a member with a number.
pub(crate) fn write_number(object: &mut Writer, name: &str, number: usize) -> Result<(), AllocError>
    ensures { OnOk result (Writes (number_member name.now number) object.old object.new) }
{
    object.key(name)?;
    object.u64(number as u64)
}

// Writes the member with the bytes of the span, from and up to.
fn write_bytes(object: &mut Writer, start: usize, end: usize) -> Result<(), AllocError>
    ensures { OnOk result (Writes (bytes_member start end) object.old object.new) }
{
    object.key("bytes")?;
    object.begin_array()?;
    object.u64(start as u64)?;
    object.u64(end as u64)?;
    object.end_array()
}

// Writes the members with the place of a finding.
fn write_place(object: &mut Writer, finding: &Finding<'_>) -> Result<(), AllocError>
    ensures { OnOk result (Writes (place_members (view finding.now)) object.old object.new) }
{
    write_string(object, "file", finding.file)?;
    write_number(object, "line", finding.line)?;
    write_number(object, "column", column(finding))?;
    write_number(object, "end", end_column(finding))?;
    write_bytes(object, finding.start, finding.end)
}

// Writes the text that a hint proposes, or null.
fn write_text(object: &mut Writer, text: Option<&str>) -> Result<(), AllocError>
    ensures { OnOk result
        (Writes (text_tokens (option_map (λ t. t.now) text.entry)) object.old object.new) }
{
    match text {
        Some(text) => object.string(text),
        None => object.null(),
    }
}

// Writes a hint as an object.
fn write_some_hint(object: &mut Writer, hint: &Hint<'_>) -> Result<(), AllocError>
    ensures { OnOk result (Writes (hint_object (hint_view hint.now)) object.old object.new) }
{
    object.begin_object()?;
    write_string(object, "message", hint.told)?;
    object.key("text")?;
    write_text(object, hint.text)?;
    object.end_object()
}

// Writes a hint as an object, or null.
fn write_hint(object: &mut Writer, hint: &Option<Hint<'_>>) -> Result<(), AllocError>
    ensures { OnOk result
        (Writes (hint_tokens (option_map hint_view hint.now)) object.old object.new) }
{
    match hint {
        Some(hint) => write_some_hint(object, hint),
        None => object.null(),
    }
}

// Writes the members with what is found.
fn write_matter(object: &mut Writer, finding: &Finding<'_>) -> Result<(), AllocError>
    ensures { OnOk result (Writes (matter_members (view finding.now)) object.old object.new) }
{
    write_string(object, "severity", severity_word(finding.severity))?;
    write_string(object, "code", finding.code)?;
    write_string(object, "message", finding.message)?;
    object.key("hint")?;
    write_hint(object, &finding.hint)
}

/// A finding as an object of JSON, and a line feed.
pub(crate) fn json_line(alloc: Global, finding: &Finding<'_>) -> Result<Vec<u8>, AllocError>
    ensures { IfOk result (λ line. line.items ≡ members.json_line (view finding.now)) }
{
    let mut object = Writer::new(Vec::new(alloc));
    object.begin_object()?;
    write_place(&mut object, finding)?;
    write_matter(&mut object, finding)?;
    object.end_object()?;
    let mut line = object.into_inner();
    line.push(b'\n')?;
    Ok(line)
}
