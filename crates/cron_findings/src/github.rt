//! Findings as commands of a workflow of GitHub.

ghost use Rattle.std.specs.Prelude.{◌≡◌, ◌++◌, OnOk};
ghost use Rattle.cron_findings.specs.Escapes.{command_word, github_file, github_line, github_matter, github_place};
ghost use Rattle.cron_findings.specs.Findings.{view};

use crate::escapes::{push_data, push_property};
use crate::finding::{Finding, Severity};
use crate::places::{column, last_column};
use crate::texts::{push_number, told};
use std::alloc::{AllocError, Global};

fn command_word(severity: Severity) -> &'static str
    ensures { result.now ≡ command_word severity }
{
    match severity {
        Severity::Error => "error",
        Severity::Warning => "warning",
        Severity::Note => "notice",
    }
}

// Appends the command's name and the file.
fn push_file(text: &mut Vec<u8>, finding: &Finding<'_>) -> Result<(), AllocError>
    ensures { OnOk result (text.new.items ≡ text.old.items ++ github_file (view finding.now)) }
{
    text.extend_from_slice(b"::")?;
    text.extend_from_slice(command_word(finding.severity).as_bytes())?;
    text.extend_from_slice(b" file=")?;
    push_property(text, finding.file)
}

// Appends the line and the columns.
fn push_place(text: &mut Vec<u8>, finding: &Finding<'_>) -> Result<(), AllocError>
    ensures { OnOk result (text.new.items ≡ text.old.items ++ github_place (view finding.now)) }
{
    text.extend_from_slice(b",line=")?;
    push_number(text, finding.line)?;
    text.extend_from_slice(b",col=")?;
    push_number(text, column(finding))?;
    text.extend_from_slice(b",endColumn=")?;
    push_number(text, last_column(finding))
}

// Appends the code and the message with its hint.
fn push_matter(alloc: Global, text: &mut Vec<u8>, finding: &Finding<'_>) -> Result<(), AllocError>
    ensures { OnOk result (text.new.items ≡ text.old.items ++ github_matter (view finding.now)) }
{
    let told = told(alloc, finding)?;
    text.extend_from_slice(b",title=")?;
    push_property(text, finding.code)?;
    text.extend_from_slice(b"::")?;
    push_data(text, told.as_str())?;
    text.extend_from_slice(b"\n")
}

/// Appends a command that makes an annotation of a finding.
pub(crate) fn push_github(
    alloc: Global,
    text: &mut Vec<u8>,
    finding: &Finding<'_>,
) -> Result<(), AllocError>
    ensures { OnOk result (text.new.items ≡ text.old.items ++ github_line (view finding.now)) }
{
    push_file(text, finding)?;
    push_place(text, finding)?;
    push_matter(alloc, text, finding)
}
