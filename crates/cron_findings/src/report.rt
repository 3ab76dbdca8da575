//! The report of a check in a format.

ghost use Rattle.std.specs.Prelude.{◌≡◌, ◌++◌, OnOk, map};
ghost use Rattle.cron_findings.specs.Findings.{view};
ghost use Rattle.cron_findings.specs.Reports.{between_text, end_text, finding_text, findings_text, further_text, head_text, report_text};

use crate::finding::{Finding, Format, Rule};
use crate::github::push_github;
use crate::objects::json_line;
use crate::sarif::{log_head, result_line};
use crate::texts::{push_gcc, push_plain, push_underlined};
use cron_controls::Controls;
use std::alloc::{AllocError, Global};

/// Appends what stands in front of all findings: of SARIF a log up to its results, with the name of
/// the tool and its rules; of other formats nothing.
pub fn push_head(
    alloc: Global,
    text: &mut Vec<u8>,
    format: Format,
    tool: &str,
    rules: &[Rule<'_>],
) -> Result<(), AllocError>
    ensures { OnOk result
        (text.new.items ≡ text.old.items ++ head_text format tool.now rules.now) }
{
    match format {
        Format::Sarif => text.extend_from_slice(log_head(alloc, tool, rules)?.as_slice()),
        _ => Ok(()),
    }
}

/// Appends what stands between two findings: of SARIF a comma, of other formats nothing.
pub fn push_between(text: &mut Vec<u8>, format: Format) -> Result<(), AllocError>
    ensures { OnOk result (text.new.items ≡ text.old.items ++ between_text format) }
{
    match format {
        Format::Sarif => text.extend_from_slice(b","),
        _ => Ok(()),
    }
}

/// Appends a finding. A line feed ends it.
///
/// ```text
/// push_finding(alloc, &mut text, Format::Gcc, &finding)?;
/// // jobs.tab:3:5: error: hour: '24': 24 is not one of 0 to 23 [number-outside]
/// ```
pub fn push_finding(
    alloc: Global,
    text: &mut Vec<u8>,
    format: Format,
    finding: &Finding<'_>,
) -> Result<(), AllocError>
    ensures { OnOk result
        (text.new.items ≡ text.old.items ++ finding_text format (view finding.now)) }
{
    match format {
        Format::Text { named } => push_plain(alloc, text, Controls::Raw, named, finding),
        Format::Underlined { named, colored } => {
            push_underlined(alloc, text, named, colored, finding)
        }
        Format::Gcc => push_gcc(alloc, text, finding),
        Format::Json => text.extend_from_slice(json_line(alloc, finding)?.as_slice()),
        Format::Github => push_github(alloc, text, finding),
        Format::Sarif => text.extend_from_slice(result_line(alloc, finding)?.as_slice()),
    }
}

/// Appends what stands behind all findings.
pub fn push_end(text: &mut Vec<u8>, format: Format) -> Result<(), AllocError>
    ensures { OnOk result (text.new.items ≡ text.old.items ++ end_text format) }
{
    match format {
        Format::Sarif => text.extend_from_slice(b"]}]}\n"),
        _ => Ok(()),
    }
}

// Appends findings, each behind what stands between two.
fn push_further(
    alloc: Global,
    text: &mut Vec<u8>,
    format: Format,
    findings: &[Finding<'_>],
) -> Result<(), AllocError>
    ensures { OnOk result
        (text.new.items ≡ text.old.items ++ further_text format (map view findings.now)) }
{
    for finding in findings {
        push_between(text, format)?;
        push_finding(alloc, text, format, finding)?;
    }
    Ok(())
}

// Appends findings, with what stands between two.
fn push_findings(
    alloc: Global,
    text: &mut Vec<u8>,
    format: Format,
    findings: &[Finding<'_>],
) -> Result<(), AllocError>
    ensures { OnOk result
        (text.new.items ≡ text.old.items ++ findings_text format (map view findings.now)) }
{
    match findings {
        [] => Ok(()),
        [first, others @ ..] => {
            push_finding(alloc, text, format, first)?;
            push_further(alloc, text, format, others)
        }
    }
}

/// Appends a whole report of findings, by a tool with these rules.
pub fn push_report(
    alloc: Global,
    text: &mut Vec<u8>,
    format: Format,
    tool: &str,
    rules: &[Rule<'_>],
    findings: &[Finding<'_>],
) -> Result<(), AllocError>
    ensures { OnOk result (text.new.items
        ≡ text.old.items ++ report_text format tool.now rules.now (map view findings.now)) }
{
    push_head(alloc, text, format, tool, rules)?;
    push_findings(alloc, text, format, findings)?;
    push_end(text, format)
}
