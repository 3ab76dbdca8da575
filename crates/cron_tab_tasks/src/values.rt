//! The values of variables.

ghost use Rattle.std.specs.Prelude.{◌≡◌, None, [], codes, map, unwrap_or};
ghost use Rattle.cron_shell.specs.Lines.{variable_view};
ghost use Rattle.cron_tab_lines.specs.Views.{bytes_view};
ghost use Rattle.cron_tab_tasks.specs.Names.{value_in};

use cron_shell::Variable;

/// The shell of entries without a setting of `SHELL`.
pub(crate) const SHELL: &[u8] = b"/bin/sh";

// The value of the last variable named `name`, or `None` if there is none.
fn value_of<'a>(variables: &[Variable<'a>], name: &[u8]) -> Option<&'a [u8]>
    ensures { bytes_view result ≡ value_in name.now None (map variable_view variables.now) }
{
    let mut value: Option<&'a [u8]> = None;
    for variable in variables {
        if variable.name == name {
            value = Some(variable.value);
        }
    }
    value
}

/// The shell that the variables set, or `/bin/sh` if they set none.
pub fn shell_of<'a>(variables: &[Variable<'a>]) -> &'a [u8]
    ensures { result.now ≡ unwrap_or
        (value_in (codes "SHELL") None (map variable_view variables.now)) (codes "/bin/sh") }
{
    match value_of(variables, b"SHELL") {
        Some(shell) => shell,
        None => SHELL,
    }
}

/// The zone that the variables set with `CRON_TZ`, or an empty text if they set none.
pub fn zone_of<'a>(variables: &[Variable<'a>]) -> &'a [u8]
    ensures { result.now ≡ unwrap_or
        (value_in (codes "CRON_TZ") None (map variable_view variables.now)) [] }
{
    match value_of(variables, b"CRON_TZ") {
        Some(zone) => zone,
        None => &[],
    }
}
