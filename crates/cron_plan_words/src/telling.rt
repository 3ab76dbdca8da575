//! Lines that tell of a plan.
ghost use Rattle.std.specs.Prelude.{◌≡◌, ◌++◌, IfOk, OnOk};
ghost use Rattle.std.specs.String.{string_bytes};
ghost use Rattle.cron_plan_words.specs.Telling.{dates_line, except_line, first_line, last_line, move_line, plan_lines, rule_line, step_line, step_text};

use crate::options::{Options, Step};
use cron_days::period::Period;
use cron_replies::form::Form;
use cron_units::way::Way;
use jiff::civil::Date;
use std::alloc::{AllocError, Global};

fn push_rule(lines: &mut String, form: Form, text: &str) -> Result<(), AllocError>
    ensures { OnOk result
        (string_bytes lines.new ≡ string_bytes lines.old ++ rule_line form text.now) }
{
    match form {
        Form::Text => writeln!(lines, "rule: {text}"),
        Form::Json => writeln!(lines, "{{\"rule\":\"{text}\"}}"),
    }
}

// The step in words, as `one week in 2, that of 2026-01-05 among them`.
fn step_text(alloc: Global, step: &Step) -> Result<String, AllocError>
    ensures { IfOk result (λ text. string_bytes text ≡ step_text step.now) }
{
    let (count, anchor) = (step.count, step.anchor);
    match step.period {
        Period::Day => format!(in alloc; "one day in {count}, {anchor} among them"),
        Period::Week => format!(in alloc; "one week in {count}, that of {anchor} among them"),
        Period::Month => format!(in alloc; "one month in {count}, that of {anchor} among them"),
    }
}

fn push_step(
    alloc: Global,
    lines: &mut String,
    form: Form,
    step: &Option<Step>,
) -> Result<(), AllocError>
    ensures { OnOk result
        (string_bytes lines.new ≡ string_bytes lines.old ++ step_line form step.now) }
{
    let Some(step) = step else {
        return Ok(());
    };
    let text = step_text(alloc, step)?;
    push_rule(lines, form, text.as_str())
}

fn push_first(
    alloc: Global,
    lines: &mut String,
    form: Form,
    first: Option<Date>,
) -> Result<(), AllocError>
    ensures { OnOk result
        (string_bytes lines.new ≡ string_bytes lines.old ++ first_line form first) }
{
    let Some(first) = first else {
        return Ok(());
    };
    let text = format!(in alloc; "from {first} on")?;
    push_rule(lines, form, text.as_str())
}

fn push_last(
    alloc: Global,
    lines: &mut String,
    form: Form,
    last: Option<Date>,
) -> Result<(), AllocError>
    ensures { OnOk result
        (string_bytes lines.new ≡ string_bytes lines.old ++ last_line form last) }
{
    let Some(last) = last else {
        return Ok(());
    };
    let text = format!(in alloc; "up to {last} inclusive")?;
    push_rule(lines, form, text.as_str())
}

fn push_dates(lines: &mut String, form: Form, dates: Option<&[Date]>) -> Result<(), AllocError>
    ensures { OnOk result
        (string_bytes lines.new ≡ string_bytes lines.old ++ dates_line form dates.entry) }
{
    match dates {
        Some(_) => push_rule(lines, form, "not on the dates of --holidays"),
        None => Ok(()),
    }
}

fn push_except(lines: &mut String, form: Form, except: bool) -> Result<(), AllocError>
    ensures { OnOk result
        (string_bytes lines.new ≡ string_bytes lines.old ++ except_line form except) }
{
    if except {
        push_rule(lines, form, "not when the expression of --except matches")
    } else {
        Ok(())
    }
}

fn push_move(lines: &mut String, form: Form, moves: Option<Way>) -> Result<(), AllocError>
    ensures { OnOk result
        (string_bytes lines.new ≡ string_bytes lines.old ++ move_line form moves) }
{
    match moves {
        Some(Way::Ahead) => push_rule(
            lines,
            form,
            "a fire on another day moves to the next allowed day",
        ),
        Some(Way::Back) => push_rule(
            lines,
            form,
            "a fire on another day moves to the last allowed day before",
        ),
        None => Ok(()),
    }
}

/// A line for each rule that `options` ask for, or an object of JSON.
pub fn plan_lines(alloc: Global, form: Form, options: &Options<'_>) -> Result<String, AllocError>
    ensures { IfOk result (λ lines. string_bytes lines ≡ plan_lines form options.now) }
{
    let mut lines = String::new(alloc);
    push_except(&mut lines, form, options.except)?;
    push_step(alloc, &mut lines, form, &options.every)?;
    push_first(alloc, &mut lines, form, options.first)?;
    push_last(alloc, &mut lines, form, options.last)?;
    push_dates(&mut lines, form, options.holidays)?;
    push_move(&mut lines, form, options.moves)?;
    Ok(lines)
}
