//! The messages about lines that are refused.

ghost use Rattle.std.specs.Prelude.{◌≡◌, ◌++◌, OnOk};
ghost use Rattle.std.specs.String.{string_bytes};
ghost use Rattle.cron_tab_lines.specs.Views.{file_line_view};
ghost use Rattle.cron_tab_tasks.specs.Told.{told_line, told_lines};

use cron_tab_lines::{FileLine, Lines, NamedZone, names_no_zone};
use std::alloc::AllocError;

// Appends a message if `line` is refused, or sets `CRON_TZ` to none of `names`.
fn push_refusal(
    told: &mut String,
    name: &str,
    names: &[NamedZone<'_>],
    line: &FileLine<'_>,
) -> Result<(), AllocError>
    ensures { OnOk result
        (string_bytes told.new
        ≡ string_bytes told.old ++ told_line name.now names.now (file_line_view line.now)) }
{
    let number = line.number;
    match &line.read {
        Ok(_) if names_no_zone(names, line) => write!(
            told,
            "{name}:{number}: CRON_TZ names no zone, and the entries below it are left out\n"
        ),
        Ok(_) => Ok(()),
        Err(refusal) => write!(told, "{name}:{number}: {refusal}\n"),
    }
}

/// Appends a line for each line of a file that is refused, and for each whose `CRON_TZ` is none of
/// `names`. `name` is the file's name in these messages.
pub fn push_refusals(
    told: &mut String,
    name: &str,
    names: &[NamedZone<'_>],
    lines: Lines<'_>,
) -> Result<(), AllocError>
    ensures { OnOk result (string_bytes told.new
        ≡ string_bytes told.old ++ told_lines name.now names.now lines.entry) }
{
    for line in lines {
        push_refusal(told, name, names, &line)?;
    }
    Ok(())
}
