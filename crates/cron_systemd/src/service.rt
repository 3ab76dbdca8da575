//! Services that run a command by a shell.

ghost use Rattle.std.specs.Prelude.{◌≡◌, ◌++◌, IfErr, IfOk, MatchResult, OnOk, map};
ghost use Rattle.std.specs.List.{flat_map};
ghost use Rattle.cron_shell.specs.Lines.{assignment, path_view, variable_view};
ghost use Rattle.cron_systemd.specs.Services.{IsSayable, IsUnsaid, SaysService, service_text, service_view};
ghost use Rattle.cron_systemd.specs.Texts.{command_text, fed_text, input_text, user_text, variable_text, without_feed, written};
ghost use Rattle.cron_systemd.specs.declared.values.Form.TheVariants.{Variable as AsVariable};

use crate::checks::{are_bytes, are_variables, is_path, is_user};
use crate::error::UnitError;
use crate::values::{Form, push_written};
use cron_shell::Variable;
use std::alloc::{AllocError, Global};

/// The length of a unit that has a line of as many bytes as systemd refuses: 1 MiB.
pub(crate) const MOST: usize = 1 << 20;

/// A service that runs a command once.
#[derive(Clone, Copy)]
pub struct Service<'a> {
    /// The user that the command runs as. `None` for the manager's own.
    pub user: Option<&'a [u8]>,
    /// The variables that are added to the environment. If two have the same name, the later one
    /// holds.
    pub variables: &'a [Variable<'a>],
    /// The path of the shell that runs the command.
    pub shell: &'a [u8],
    /// The command.
    pub command: &'a [u8],
    /// The lines that the command reads as its input. The last line may lack its line feed.
    pub input: &'a [u8],
}

// Appends the line of the user, if there is one.
fn push_user(text: &mut Vec<u8>, user: Option<&[u8]>) -> Result<(), AllocError>
    ensures { OnOk result (text.new.items ≡ text.old.items ++ user_text (path_view user.entry)) }
{
    let Some(name) = user else {
        return Ok(());
    };
    text.extend_from_slice(b"User=")?;
    text.extend_from_slice(name)?;
    text.extend_from_slice(b"\n")
}

// Appends `NAME=VALUE` as it stands between quotes.
fn push_assignment(text: &mut Vec<u8>, variable: &Variable<'_>) -> Result<(), AllocError>
    ensures { OnOk result (text.new.items ≡ text.old.items
        ++ written AsVariable (assignment (variable_view variable.now))) }
{
    push_written(text, Form::Variable, variable.name)?;
    push_written(text, Form::Variable, b"=")?;
    push_written(text, Form::Variable, variable.value)
}

// Appends the line of a variable.
fn push_variable(text: &mut Vec<u8>, variable: &Variable<'_>) -> Result<(), AllocError>
    ensures { OnOk result (text.new.items ≡ text.old.items
        ++ variable_text (variable_view variable.now)) }
{
    text.extend_from_slice(b"Environment=\"")?;
    push_assignment(text, variable)?;
    text.extend_from_slice(b"\"\n")?;
    Ok(())
}

fn push_variables(text: &mut Vec<u8>, variables: &[Variable<'_>]) -> Result<(), AllocError>
    ensures { OnOk result (text.new.items ≡ text.old.items
        ++ flat_map variable_text (map variable_view variables.now)) }
{
    for variable in variables {
        push_variable(text, variable)?;
    }
    Ok(())
}

// Appends the line that makes the shell run the command.
fn push_command(text: &mut Vec<u8>, shell: &[u8], command: &[u8]) -> Result<(), AllocError>
    ensures { OnOk result
        (text.new.items ≡ text.old.items ++ command_text shell.now command.now) }
{
    text.extend_from_slice(b"ExecStart=")?;
    text.extend_from_slice(shell)?;
    text.extend_from_slice(b" -c \"")?;
    push_written(text, Form::Argument, command)?;
    text.extend_from_slice(b"\"\n")
}

fn without_feed(input: &[u8]) -> &[u8]
    ensures { result.now ≡ without_feed input.now }
{
    match input.last() {
        Some(byte) if *byte == b'\n' => &input[..input.len() - 1],
        _ => input,
    }
}

// Appends the line of an input, given without its last line feed.
fn push_fed(text: &mut Vec<u8>, input: &[u8]) -> Result<(), AllocError>
    ensures { OnOk result (text.new.items ≡ text.old.items ++ fed_text input.now) }
{
    if input.is_empty() {
        return text.extend_from_slice(b"StandardInputData=Cg==\n");
    }
    text.extend_from_slice(b"StandardInputText=")?;
    push_written(text, Form::Input, input)?;
    text.extend_from_slice(b"\n")?;
    Ok(())
}

// Appends the line of the input, if there is any.
fn push_input(text: &mut Vec<u8>, input: &[u8]) -> Result<(), AllocError>
    ensures { OnOk result (text.new.items ≡ text.old.items ++ input_text input.now) }
{
    if input.is_empty() {
        return Ok(());
    }
    push_fed(text, without_feed(input))
}

// The text of the service, whether systemd takes it or not.
fn text_of(alloc: Global, service: &Service<'_>) -> Result<Vec<u8>, AllocError>
    ensures { IfOk result (λ text. text.items ≡ service_text (service_view service.now)) }
{
    let mut text = Vec::from_slice(
        alloc,
        b"[Service]\nType=oneshot\nKillMode=process\nIgnoreSIGPIPE=no\nWorkingDirectory=~\n",
    )?;
    push_user(&mut text, service.user)?;
    push_variables(&mut text, service.variables)?;
    push_command(&mut text, service.shell, service.command)?;
    push_input(&mut text, service.input)?;
    Ok(text)
}

// Why systemd doesn't take what the service is made of, if it doesn't.
fn unsaid(service: &Service<'_>) -> Result<(), UnitError>
    ensures { MatchResult result
        (λ _. IsSayable (service_view service.now)) (IsUnsaid (service_view service.now)) }
{
    if !is_user(service.user) {
        return Err(UnitError::User);
    }
    if !are_variables(service.variables) {
        return Err(UnitError::Variable);
    }
    if !is_path(service.shell) {
        return Err(UnitError::Shell);
    }
    if !are_bytes(service.command) || !are_bytes(service.input) {
        return Err(UnitError::Input);
    }
    Ok(())
}

/// The text of a service, which runs in the user's home and is started by a timer of its name. Its
/// processes aren't ended when the command ends. An error says what systemd doesn't take.
/// [`texts_are_read_back`](crate::laws::texts_are_read_back) says the same of all texts.
pub fn service_text(alloc: Global, service: &Service<'_>) -> Result<Vec<u8>, UnitError>
    ensures ok { IfOk result (λ text. SaysService (service_view service.now) text.items) }
    ensures text { IfOk result (λ text. text.items ≡ service_text (service_view service.now)) }
    ensures err { IfErr result (IsUnsaid (service_view service.now)) }
{
    unsaid(service)?;
    let text = text_of(alloc, service)?;
    if text.len() >= MOST {
        return Err(UnitError::Long);
    }
    Ok(text)
}
