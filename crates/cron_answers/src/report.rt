//! The report on an expression: its sentence, its warnings, and how often it fires.

ghost use Rattle.std.specs.Prelude.{◌≡◌, ◌++◌, IfOk, MatchOption, OnOk};
ghost use Rattle.std.specs.String.{string_bytes};
ghost use Rattle.cron_crontab.specs.Views.{expression_view};
ghost use Rattle.cron_tab_warnings.specs.Messages.{warning_text};
ghost use Rattle.cron_replies.specs.Inner.Telling.{AppendsTold};
ghost use Rattle.cron_answers.specs.Reports.{IsHead, IsNoTab, IsTab, TellsOfTab, TellsWarnings, sentence_line, sentence_of, tally_text, waits_text, warning_line};

use crate::expression::Expression;
use crate::tally::{Tally, Waits};
use cron_crontab::Expression as TabExpression;
use cron_replies::form::Form;
use cron_tab_lines::Crontab;
use cron_tab_warnings::{WARNINGS, Warning, warns};
use cron_words::sentence::sentence;
use cron_words::waits::wait_text;
use std::alloc::{AllocError, Global};

fn sentence_of(alloc: Global, expression: &Expression) -> Result<String, AllocError>
    ensures { IfOk result (λ text. string_bytes text ≡ sentence_of expression.now) }
{
    match expression {
        Expression::Reboot => format!(in alloc; "When the machine starts"),
        _ => sentence(alloc, expression.as_slice()),
    }
}

fn push_sentence(report: &mut String, form: Form, text: &str) -> Result<(), AllocError>
    ensures { OnOk result
        (string_bytes report.new ≡ string_bytes report.old ++ sentence_line form text.now) }
{
    match form {
        Form::Text => writeln!(report, "{text}"),
        Form::Json => writeln!(report, "{{\"sentence\":\"{text}\"}}"),
    }
}

fn push_warning(report: &mut String, form: Form, warning: Warning) -> Result<(), AllocError>
    ensures { OnOk result (string_bytes report.new
        ≡ string_bytes report.old ++ warning_line form (warning_text warning)) }
{
    match form {
        Form::Text => writeln!(report, "warning: {warning}"),
        Form::Json => writeln!(report, "{{\"warning\":\"{warning}\"}}"),
    }
}

// Appends the warnings that apply to a crontab's expression.
fn push_those_due(
    report: &mut String,
    form: Form,
    text: &str,
    expression: &TabExpression,
) -> Result<(), AllocError>
    ensures { OnOk result (AppendsTold
        (TellsOfTab form text.now (expression_view expression.now))
        (string_bytes report.old) (string_bytes report.new)) }
{
    for warning in &WARNINGS {
        if warns(Crontab::User, *warning, text, expression) {
            push_warning(report, form, *warning)?;
        }
    }
    Ok(())
}

// A crontab's expression. `None` if it is of another kind.
fn tab_of(expression: &Expression) -> Option<TabExpression>
    ensures { MatchOption result
        (IsNoTab expression.now) (λ tab. IsTab expression.now (expression_view tab)) }
{
    match expression {
        Expression::Crontab(schedules, _) => Some(TabExpression::Fires(*schedules)),
        Expression::Reboot => Some(TabExpression::Reboot),
        Expression::Own(_) | Expression::Quartz(_) => None,
    }
}

// Appends the warnings that apply to an expression, by its text or its line. There are none if it
// isn't a crontab's.
fn push_warnings(
    report: &mut String,
    form: Form,
    text: &str,
    expression: &Expression,
) -> Result<(), AllocError>
    ensures { OnOk result (AppendsTold (TellsWarnings form text.now expression.now)
        (string_bytes report.old) (string_bytes report.new)) }
{
    match tab_of(expression) {
        Some(tab) => push_those_due(report, form, text, &tab),
        None => Ok(()),
    }
}

/// The sentence of an expression. If it is a crontab's, its warnings follow, by its text or its line.
/// Then come the lines that tell of its plan.
pub(crate) fn head_of(
    alloc: Global,
    form: Form,
    text: &str,
    expression: &Expression,
    plan_lines: &str,
) -> Result<String, AllocError>
    ensures { IfOk result (λ head.
        IsHead form text.now expression.now plan_lines.now (string_bytes head)) }
{
    let words = sentence_of(alloc, expression)?;
    let mut report = String::new(alloc);
    push_sentence(&mut report, form, words.as_str())?;
    push_warnings(&mut report, form, text, expression)?;
    report.push_str(plan_lines)?;
    Ok(report)
}

fn waits_text(alloc: Global, form: Form, waits: &Option<Waits>) -> Result<String, AllocError>
    ensures { IfOk result (λ text. string_bytes text ≡ waits_text form waits.now) }
{
    let Some(Waits { shortest, longest }) = *waits else {
        return Ok(String::new(alloc));
    };
    if form == Form::Json {
        return format!(in alloc; ",\"shortest_wait\":{shortest},\"longest_wait\":{longest}");
    }
    let shortest = wait_text(alloc, shortest)?;
    let longest = wait_text(alloc, longest)?;
    format!(in alloc; "shortest wait: {shortest}\nlongest wait: {longest}\n")
}

/// The text of the number of fires, and of the waits between them.
pub(crate) fn tally_text(alloc: Global, form: Form, tally: &Tally) -> Result<String, AllocError>
    ensures { IfOk result (λ text. string_bytes text ≡ tally_text form tally.now) }
{
    let waits = waits_text(alloc, form, &tally.waits)?;
    let fires = tally.fires;
    match form {
        Form::Text => format!(in alloc; "fires in 365 days: {fires}\n{waits}"),
        Form::Json => format!(in alloc; "{{\"fires_in_365_days\":{fires}{waits}}}\n"),
    }
}
