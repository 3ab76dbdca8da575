//! The text that is written for an entry.

ghost use Rattle.std.specs.Prelude.{◌≡◌, ◌++◌, ◌∷◌, [], IfOk, OnOk, map, option_map};
ghost use Rattle.cron_crontab.specs.Views.{expression_view};
ghost use Rattle.cron_shell.specs.Lines.{variable_view};
ghost use Rattle.cron_tab_lines.specs.Entries.{unescaped};
ghost use Rattle.cron_tab_lines.specs.Views.{bytes_view, entry_view};
ghost use Rattle.cron_tab_tasks.specs.Tasks.{input_text, shell_text, start_front, text_of, ways_view};

use crate::names::file_in;
use crate::orders::{Form, Ways};
use crate::values::shell_of;
use cron_crontab::Expression;
use cron_shell::{ShellJob, Variable, push_line, push_log_front};
use cron_tab_lines::{Entry, Unescaped};
use std::alloc::{AllocError, Global};

/// The input that a command reads, without the backslashes of percent signs. It is empty if `input`
/// is `None`.
pub fn input_text(alloc: Global, input: Option<&[u8]>) -> Result<Vec<u8>, AllocError>
    ensures { IfOk result (λ text. text.items ≡ input_text (bytes_view input.entry)) }
{
    match input {
        Some(bytes) => Unescaped::of(bytes).collect(alloc),
        None => Ok(Vec::new(alloc)),
    }
}

// Appends the front that writes `@reboot` to the log, if the entry is an `@reboot` entry and `logs`
// is given.
fn push_start(
    text: &mut Vec<u8>,
    logs: Option<&[u8]>,
    expression: &Expression,
) -> Result<(), AllocError>
    ensures { OnOk result (text.new.items ≡ text.old.items
        ++ start_front (bytes_view logs.entry) (expression_view expression.now)) }
{
    match (logs, expression) {
        (Some(_), Expression::Reboot) => push_log_front(text, b"@reboot"),
        _ => Ok(()),
    }
}

// The name of `file`, or `None` if there is no file.
fn lent(file: &Option<Vec<u8>>) -> Option<&[u8]>
    ensures { bytes_view result ≡ option_map (λ f. f.items) file.now }
{
    match file {
        Some(name) => Some(name.as_slice()),
        None => None,
    }
}

// The line that makes a shell run the entry of `line`, without the front that writes the instant of
// a fire to the log.
fn shell_text(
    alloc: Global,
    ways: &Ways<'_>,
    variables: &[Variable<'_>],
    line: &[u8],
    entry: &Entry<'_>,
) -> Result<Vec<u8>, AllocError>
    ensures { IfOk result (λ text. text.items ≡ shell_text (ways_view ways.now)
        (map variable_view variables.now) line.now (entry_view entry.now)) }
{
    let command: Vec<u8> = Unescaped::of(entry.command).collect(alloc)?;
    let input = input_text(alloc, entry.input)?;
    let lock = file_in(alloc, ways.locks, variables, line, b".lock")?;
    let log = file_in(alloc, ways.logs, variables, line, b".log")?;
    let job = ShellJob {
        variables,
        shell: shell_of(variables),
        command: command.as_slice(),
        input: input.as_slice(),
        timeout: ways.timeout,
    };
    let lock_path = lent(&lock);
    let log_path = lent(&log);
    let mut text = Vec::new(alloc);
    push_start(&mut text, ways.logs, &entry.expression)?;
    push_line(&mut text, &job, lock_path, log_path)?;
    Ok(text)
}

// The command of an entry, and a line feed.
fn command_text(alloc: Global, command: &[u8]) -> Result<Vec<u8>, AllocError>
    ensures { IfOk result (λ text. text.items ≡ unescaped command.now ++ 10 ∷ []) }
{
    let mut text: Vec<u8> = Unescaped::of(command).collect(alloc)?;
    text.push(b'\n')?;
    Ok(text)
}

/// The text in `form` for the entry of `line`, where the lines above set `variables`.
pub(crate) fn text_of(
    alloc: Global,
    form: &Form<'_>,
    variables: &[Variable<'_>],
    line: &[u8],
    entry: &Entry<'_>,
) -> Result<Vec<u8>, AllocError>
    ensures { IfOk result (λ text. text.items ≡ text_of form.now
        (map variable_view variables.now) line.now (entry_view entry.now)) }
{
    match form {
        Form::Command => command_text(alloc, entry.command),
        Form::Shell(ways) => shell_text(alloc, ways, variables, line, entry),
    }
}
