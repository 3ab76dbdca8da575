//! The use of a file's lines for the text that is written: settings become variables, and entries
//! become text.

ghost use Rattle.std.specs.Prelude.{◌≡◌, ◌++◌, IfOk, OnOk, map, option_map};
ghost use Rattle.cron_shell.specs.Lines.{variable_view};
ghost use Rattle.cron_tab_lines.specs.Views.{file_line_view};
ghost use Rattle.cron_tab_tasks.specs.Tasks.{defaults, orders_view, text_in, variables_in};

use crate::orders::{Orders, is_wanted};
use crate::texts::text_of;
use crate::values::SHELL;
use cron_shell::Variable;
use cron_tab_lines::{FileLine, Line};
use std::alloc::{AllocError, Global};

/// Appends the variables that a file's entries have without a setting: `SHELL`, which is `/bin/sh`.
pub fn push_defaults<'a>(variables: &mut Vec<Variable<'a>>) -> Result<(), AllocError>
    ensures { OnOk result (map variable_view variables.new.items
        ≡ map variable_view variables.old.items ++ defaults) }
{
    variables.push(Variable {
        name: b"SHELL",
        value: SHELL,
    })?;
    Ok(())
}

/// Appends the variable that `line` sets, if it is a setting or sets `CRON_TZ`. `variables` are set
/// by the lines above.
pub fn push_variable<'a>(
    variables: &mut Vec<Variable<'a>>,
    line: &FileLine<'a>,
) -> Result<(), AllocError>
    ensures { OnOk result (map variable_view variables.new.items
        ≡ map variable_view variables.old.items ++ variables_in (file_line_view line.now).outcome) }
{
    match &line.read {
        Ok(Line::Setting(setting)) => variables.push(Variable {
            name: setting.name,
            value: setting.value,
        })?,
        Ok(Line::Zone(value)) => variables.push(Variable {
            name: b"CRON_TZ",
            value: *value,
        })?,
        _ => {}
    }
    Ok(())
}

/// The text that is written for `line`, where the lines above set `variables`. `None` if `line` is
/// no entry that `orders` selects.
pub fn text_in(
    alloc: Global,
    orders: &Orders<'_>,
    variables: &[Variable<'_>],
    line: &FileLine<'_>,
) -> Result<Option<Vec<u8>>, AllocError>
    ensures { IfOk result (λ text. option_map (λ t. t.items) text
        ≡ text_in (orders_view orders.now) (map variable_view variables.now)
        (file_line_view line.now)) }
{
    match &line.read {
        Ok(Line::Entry(entry)) if is_wanted(orders.user, entry) => {
            Ok(Some(text_of(alloc, &orders.form, variables, line.bytes, entry)?))
        }
        _ => Ok(None),
    }
}
