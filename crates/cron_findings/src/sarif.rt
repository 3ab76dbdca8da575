//! Findings as results in a log of SARIF 2.1.0.

ghost use Rattle.std.specs.Prelude.{◌≡◌, ◌++◌, ◌∷◌, [], IfOk, OnOk};
ghost use Rattle.std.specs.List.{flat_map};
ghost use Rattle.json.specs.Print.{print};
ghost use Rattle.cron_findings.specs.Findings.{view};
ghost use Rattle.cron_findings.specs.Members.{Writes, artifact_member, location_object, locations_member, message_object, region_member, result_members, told_member};
ghost use Rattle.cron_findings.specs.Members as members;
ghost use Rattle.cron_findings.specs.Reports as reports;
ghost use Rattle.cron_findings.specs.Reports.{driver_object, rule_object, run_front, tool_member};

use crate::escapes::uri;
use crate::finding::{Finding, Rule};
use crate::objects::{write_number, write_string};
use crate::places::{column, end_column};
use crate::texts::{severity_word, told};
use json::Writer;
use std::alloc::{AllocError, Global};

// Writes an object whose one member is `text`.
fn write_message(object: &mut Writer, text: &str) -> Result<(), AllocError>
    ensures { OnOk result (Writes (message_object text.now) object.old object.new) }
{
    object.begin_object()?;
    write_string(object, "text", text)?;
    object.end_object()
}

// Writes the member with the file.
fn write_artifact(
    alloc: Global,
    object: &mut Writer,
    finding: &Finding<'_>,
) -> Result<(), AllocError>
    ensures { OnOk result (Writes (artifact_member (view finding.now)) object.old object.new) }
{
    let uri = uri(alloc, finding.file)?;
    object.key("artifactLocation")?;
    object.begin_object()?;
    write_string(object, "uri", uri.as_str())?;
    object.end_object()
}

// Writes the member with the line and the columns.
fn write_region(object: &mut Writer, finding: &Finding<'_>) -> Result<(), AllocError>
    ensures { OnOk result (Writes (region_member (view finding.now)) object.old object.new) }
{
    object.key("region")?;
    object.begin_object()?;
    write_number(object, "startLine", finding.line)?;
    write_number(object, "startColumn", column(finding))?;
    write_number(object, "endColumn", end_column(finding))?;
    object.end_object()
}

// Writes the place of a finding.
fn write_location(
    alloc: Global,
    object: &mut Writer,
    finding: &Finding<'_>,
) -> Result<(), AllocError>
    ensures { OnOk result (Writes (location_object (view finding.now)) object.old object.new) }
{
    object.begin_object()?;
    object.key("physicalLocation")?;
    object.begin_object()?;
    write_artifact(alloc, object, finding)?;
    write_region(object, finding)?;
    object.end_object()?;
    object.end_object()
}

// Writes the member with the message and its hint.
fn write_told(alloc: Global, object: &mut Writer, finding: &Finding<'_>) -> Result<(), AllocError>
    ensures { OnOk result (Writes (told_member (view finding.now)) object.old object.new) }
{
    let told = told(alloc, finding)?;
    object.key("message")?;
    write_message(object, told.as_str())
}

// Writes the member with the only place.
fn write_locations(
    alloc: Global,
    object: &mut Writer,
    finding: &Finding<'_>,
) -> Result<(), AllocError>
    ensures { OnOk result (Writes (locations_member (view finding.now)) object.old object.new) }
{
    object.key("locations")?;
    object.begin_array()?;
    write_location(alloc, object, finding)?;
    object.end_array()
}

// Writes the members of a result.
fn write_result(alloc: Global, object: &mut Writer, finding: &Finding<'_>) -> Result<(), AllocError>
    ensures { OnOk result (Writes (result_members (view finding.now)) object.old object.new) }
{
    write_string(object, "ruleId", finding.code)?;
    write_string(object, "level", severity_word(finding.severity))?;
    write_told(alloc, object, finding)?;
    write_locations(alloc, object, finding)
}

/// A finding as a result of SARIF, and a line feed.
pub(crate) fn result_line(alloc: Global, finding: &Finding<'_>) -> Result<Vec<u8>, AllocError>
    ensures { IfOk result (λ line. line.items ≡ members.result_line (view finding.now)) }
{
    let mut object = Writer::new(Vec::new(alloc));
    object.begin_object()?;
    write_result(alloc, &mut object, finding)?;
    object.end_object()?;
    let mut line = object.into_inner();
    line.push(b'\n')?;
    Ok(line)
}

// ---- the head of a log

// Writes a rule.
fn write_rule(object: &mut Writer, rule: &Rule<'_>) -> Result<(), AllocError>
    ensures { OnOk result (Writes (rule_object rule.now) object.old object.new) }
{
    object.begin_object()?;
    write_string(object, "id", rule.code)?;
    object.key("shortDescription")?;
    write_message(object, rule.title)?;
    object.key("help")?;
    write_message(object, rule.help)?;
    object.end_object()
}

fn write_rules(object: &mut Writer, rules: &[Rule<'_>]) -> Result<(), AllocError>
    ensures { OnOk result (Writes (flat_map rule_object rules.now) object.old object.new) }
{
    for rule in rules {
        write_rule(object, rule)?;
    }
    Ok(())
}

// Writes the tool's name and its rules.
fn write_driver(object: &mut Writer, tool: &str, rules: &[Rule<'_>]) -> Result<(), AllocError>
    ensures { OnOk result (Writes (driver_object tool.now rules.now) object.old object.new) }
{
    object.begin_object()?;
    write_string(object, "name", tool)?;
    object.key("rules")?;
    object.begin_array()?;
    write_rules(object, rules)?;
    object.end_array()?;
    object.end_object()
}

// Writes the member with the tool.
fn write_tool(object: &mut Writer, tool: &str, rules: &[Rule<'_>]) -> Result<(), AllocError>
    ensures { OnOk result (Writes (tool_member tool.now rules.now) object.old object.new) }
{
    object.key("tool")?;
    object.begin_object()?;
    object.key("driver")?;
    write_driver(object, tool, rules)?;
    object.end_object()
}

// Writes a run up to its results.
fn write_run_front(object: &mut Writer, tool: &str, rules: &[Rule<'_>]) -> Result<(), AllocError>
    ensures { OnOk result (Writes (run_front tool.now rules.now) object.old object.new) }
{
    object.begin_object()?;
    write_tool(object, tool, rules)?;
    write_string(object, "columnKind", "unicodeCodePoints")?;
    object.key("results")?;
    object.begin_array()
}

/// Writes a log up to its results.
fn write_head(object: &mut Writer, tool: &str, rules: &[Rule<'_>]) -> Result<(), AllocError>
    ensures { OnOk result (Writes (reports.log_head tool.now rules.now) object.old object.new) }
{
    object.begin_object()?;
    write_string(
        object,
        "$schema",
        "https://json.schemastore.org/sarif-2.1.0.json",
    )?;
    write_string(object, "version", "2.1.0")?;
    object.key("runs")?;
    object.begin_array()?;
    write_run_front(object, tool, rules)
}

/// A log up to its results, and a line feed.
pub(crate) fn log_head(alloc: Global, tool: &str, rules: &[Rule<'_>]) -> Result<Vec<u8>, AllocError>
    ensures { IfOk result (λ line. line.items ≡ print (reports.log_head tool.now rules.now) ++ 10 ∷ []) }
{
    let mut object = Writer::new(Vec::new(alloc));
    write_head(&mut object, tool, rules)?;
    let mut line = object.into_inner();
    line.push(b'\n')?;
    Ok(line)
}
