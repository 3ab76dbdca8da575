//! Replays the rows of `data/`: findings, with the texts that each format has for them, as Python
//! writes them. It prints each answer that differs from its row, and the number of rows of each file.
#![tactic(auto)]

use anyhow::{Context, Result, bail};
use cron_findings::{Finding, Format, Hint, Rule, Severity, push_report};
use cron_test_rows::{Ask, Row, ask_files};
use std::alloc::{AllocError, Global};

/// What the rows of a file hold: a format, a finding, and the report of the finding.
#[derive(Clone, Copy)]
struct Findings;

const FILES: [(Findings, &str); 1] = [(Findings, "findings.tsv")];

const RULES: [Rule<'static>; 2] = [
    Rule {
        code: "number-outside",
        title: "A number is outside of its field",
        help: "Write a number of the field: an hour is 0 to 23.",
    },
    Rule {
        code: "line-nul",
        title: "A line has a NUL",
        help: "Remove the \"NUL\".",
    },
];

// The text of a cell, where signs stand for line feeds, carriage returns, tabs and escapes.
fn text_of(alloc: Global, cell: &str) -> Result<String, AllocError> {
    let text = cell.replace(alloc, '␊', "\n")?;
    let text = text.as_str().replace(alloc, '␍', "\r")?;
    let text = text.as_str().replace(alloc, '␛', "\u{1b}")?;
    text.as_str().replace(alloc, '␉', "\t")
}

// The same the other way.
fn cell_of(alloc: Global, text: &str) -> Result<String, AllocError> {
    let cell = text.replace(alloc, '\n', "␊")?;
    let cell = cell.as_str().replace(alloc, '\r', "␍")?;
    let cell = cell.as_str().replace(alloc, '\u{1b}', "␛")?;
    cell.as_str().replace(alloc, '\t', "␉")
}

fn format_of(word: &str) -> Result<Format> {
    Ok(match word {
        "text" => Format::Text { named: true },
        "nameless" => Format::Text { named: false },
        "underlined" => Format::Underlined {
            named: true,
            colored: false,
        },
        "colored" => Format::Underlined {
            named: false,
            colored: true,
        },
        "gcc" => Format::Gcc,
        "json" => Format::Json,
        "github" => Format::Github,
        "sarif" => Format::Sarif,
        _ => bail!("no format"),
    })
}

fn severity_of(word: &str) -> Result<Severity> {
    Ok(match word {
        "error" => Severity::Error,
        "warning" => Severity::Warning,
        "note" => Severity::Note,
        _ => bail!("no severity"),
    })
}

impl Ask for Findings {
    fn ask(&self, row: &mut Row<'_>) -> Result<()> {
        let alloc = row.alloc();
        let format = format_of(row.cell())?;
        let count = row.cell().parse::<usize>()?;
        let file = text_of(alloc, row.cell())?;
        let line = row.cell().parse::<usize>()?;
        let bytes = hex::decode(alloc, row.cell())?;
        let start = row.cell().parse::<usize>()?;
        let end = row.cell().parse::<usize>()?;
        let severity = severity_of(row.cell())?;
        let code = text_of(alloc, row.cell())?;
        let message = text_of(alloc, row.cell())?;
        let (told, proposed) = (text_of(alloc, row.cell())?, text_of(alloc, row.cell())?);
        let text = if proposed.as_str() == "-" {
            None
        } else {
            Some(proposed.as_str())
        };
        let hint = if told.as_str() == "-" {
            None
        } else {
            Some(Hint {
                told: told.as_str(),
                text,
            })
        };
        let finding = Finding {
            file: file.as_str(),
            line,
            bytes: bytes.as_slice(),
            start,
            end,
            severity,
            code: code.as_str(),
            message: message.as_str(),
            hint,
        };
        let findings = [finding, finding];
        let some = findings.get(..count).context("too many findings")?;
        let mut report = Vec::new(alloc);
        push_report(alloc, &mut report, format, "crontool", &RULES, some)?;
        let shown = String::from_utf8_lossy(alloc, report.as_slice())?;
        row.add("", &cell_of(alloc, shown.as_str())?)?;
        row.check("its report")
    }
}

fn main(rt: HostRuntime) -> Result<()> {
    ask_files(&rt, &FILES)
}
