//! The line of a job, which a POSIX shell runs in the background.

ghost use Rattle.std.specs.Prelude.{◌≡◌, ◌<◌, ◌≤◌, ◌++◌, ◌∷◌, OnOk, codes, length, map};
ghost use Rattle.cron_shell.specs.Lines.{arguments, assignment, fed, input_lines, job_tail, line_end, lock_end, lock_front, log_front, path_view, timed, timer, variable_view, work_of};
ghost use Rattle.cron_shell.specs.Inner.Cuts.{front_len};
ghost use Rattle.cron_shell.specs.Quoted.{quoted, words};

use crate::words::{push_bytes, push_word};
use itoa::Buffer;
use std::alloc::AllocError;

/// A variable of a job's environment.
#[derive(Clone, Copy)]
pub struct Variable<'a> {
    pub name: &'a [u8],
    pub value: &'a [u8],
}

/// A job: what a shell runs.
#[derive(Clone, Copy)]
pub struct ShellJob<'a> {
    /// The variables that are added to the environment. If two have the same name, the later one
    /// holds.
    pub variables: &'a [Variable<'a>],
    /// The shell that runs the command. A shell whose name has a `=` isn't found.
    pub shell: &'a [u8],
    /// The command.
    pub command: &'a [u8],
    /// The lines that the command reads as its input. The last line may lack its line feed.
    pub input: &'a [u8],
    /// The number of seconds after which the command is ended. `None` for no limit.
    pub timeout: Option<u64>,
}

// Appends `NAME=VALUE` as a word.
fn push_variable(line: &mut Vec<u8>, variable: &Variable<'_>) -> Result<(), AllocError>
    ensures { OnOk result
        (line.new.items ≡ line.old.items
        ++ 32 ∷ quoted (assignment (variable_view variable.now))) }
{
    line.extend_from_slice(b" '")?;
    push_bytes(line, variable.name)?;
    line.push(b'=')?;
    push_bytes(line, variable.value)?;
    line.push(b'\'')?;
    Ok(())
}

fn push_variables(line: &mut Vec<u8>, variables: &[Variable<'_>]) -> Result<(), AllocError>
    ensures { OnOk result
        (line.new.items ≡ line.old.items
        ++ words (map assignment (map variable_view variables.now))) }
{
    for variable in variables {
        push_variable(line, variable)?;
    }
    Ok(())
}

// The number of bytes before the first line feed, or the length of `text` if there is none.
fn front_len(text: &[u8]) -> usize
    ensures is { result ≡ front_len text.now }
    ensures within { result ≤ length text.now }
{
    for (at, byte) in text.iter().enumerate() {
        if *byte == b'\n' {
            return at;
        }
    }
    text.len()
}

/// Cuts `text` into its first line, without the line feed, and the rest after the line feed. The
/// last line may have no line feed.
pub fn cut_line(text: &[u8]) -> (&[u8], &[u8])
    requires { 0 < length text.now }
    ensures lines { input_lines text.now ≡ result.0.now ∷ input_lines result.1.now }
    ensures shorter { length result.1.now < length text.now }
{
    let end = front_len(text);
    if end >= text.len() {
        return (text, &[]);
    }
    (&text[..end], &text[end + 1..])
}

// Appends each line of `text` as a word.
fn push_lines(line: &mut Vec<u8>, text: &[u8]) -> Result<(), AllocError>
    ensures { OnOk result (line.new.items ≡ line.old.items ++ words (input_lines text.now)) }
{
    let mut rest = text;
    while !rest.is_empty() {
        let (first, others) = cut_line(rest);
        push_word(line, first)?;
        rest = others;
    }
    Ok(())
}

// Appends the words that end a command after the seconds of `timeout`, or nothing if it is `None`.
fn push_timer(line: &mut Vec<u8>, timeout: Option<u64>) -> Result<(), AllocError>
    ensures { OnOk result (line.new.items ≡ line.old.items ++ timer timeout) }
{
    let Some(seconds) = timeout else {
        return Ok(());
    };
    line.extend_from_slice(b"timeout")?;
    push_word(line, Buffer::new().format(seconds).as_bytes())?;
    line.extend_from_slice(b" ")?;
    Ok(())
}

// Appends the words that run the command with its variables and its shell.
fn push_command(line: &mut Vec<u8>, job: &ShellJob<'_>) -> Result<(), AllocError>
    ensures { OnOk result
        (line.new.items ≡ line.old.items
        ++ (codes "env --" ++ words (arguments (work_of job.now)))) }
{
    line.extend_from_slice(b"env --")?;
    push_variables(line, job.variables)?;
    push_word(line, job.shell)?;
    push_word(line, b"-c")?;
    push_word(line, job.command)?;
    Ok(())
}

// Appends the words that run the command and end it after the seconds of `timeout`, if the job has
// one.
fn push_timed(line: &mut Vec<u8>, job: &ShellJob<'_>) -> Result<(), AllocError>
    ensures { OnOk result (line.new.items ≡ line.old.items ++ timed (work_of job.now)) }
{
    push_timer(line, job.timeout)?;
    push_command(line, job)?;
    Ok(())
}

// Appends the command, fed with its input by `printf`, or with `/dev/null` if it has no input.
fn push_fed(line: &mut Vec<u8>, job: &ShellJob<'_>) -> Result<(), AllocError>
    ensures { OnOk result (line.new.items ≡ line.old.items
        ++ fed (input_lines job.now.input.now) (timed (work_of job.now))) }
{
    if job.input.is_empty() {
        push_timed(line, job)?;
        line.extend_from_slice(b" </dev/null")?;
        return Ok(());
    }
    line.extend_from_slice(b"printf '%s\\n'")?;
    push_lines(line, job.input)?;
    line.extend_from_slice(b" | ")?;
    push_timed(line, job)?;
    Ok(())
}

// Appends the text before a command that is run under a lock, or nothing if `lock` is `None`.
fn push_lock_front(line: &mut Vec<u8>, lock: Option<&[u8]>) -> Result<(), AllocError>
    ensures { OnOk result (line.new.items ≡ line.old.items ++ lock_front (path_view lock.entry)) }
{
    match lock {
        Some(_) => line.extend_from_slice(b"if flock -n 9; then "),
        None => Ok(()),
    }
}

// Appends the text after a command that is run under a lock, or nothing if `lock` is `None`.
fn push_lock_end(line: &mut Vec<u8>, lock: Option<&[u8]>) -> Result<(), AllocError>
    ensures { OnOk result (line.new.items ≡ line.old.items ++ lock_end (path_view lock.entry)) }
{
    let Some(file) = lock else {
        return Ok(());
    };
    line.extend_from_slice(
        b"; else printf 'crontool: passed over while its last command runs: %s\\n'",
    )?;
    push_word(line, file)?;
    line.extend_from_slice(b" >&2; fi 9>>")?;
    push_word(line, file)?;
    Ok(())
}

// Appends the end of a job's line. If there is a file `log`, the output is appended to that file.
fn push_end(line: &mut Vec<u8>, log: Option<&[u8]>) -> Result<(), AllocError>
    ensures { OnOk result (line.new.items ≡ line.old.items ++ line_end (path_view log.entry)) }
{
    let Some(file) = log else {
        return line.extend_from_slice(b" &\n");
    };
    line.extend_from_slice(b"; } >>")?;
    push_word(line, file)?;
    line.extend_from_slice(b" 2>&1 &\n")?;
    Ok(())
}

/// Appends the front of a job's line that writes `fire` to the log, before the output. The caller
/// appends the rest of the line with `push_line`.
pub fn push_log_front(line: &mut Vec<u8>, fire: &[u8]) -> Result<(), AllocError>
    ensures { OnOk result (line.new.items ≡ line.old.items ++ log_front fire.now) }
{
    line.extend_from_slice(b"{ printf '%s\\n'")?;
    push_word(line, fire)?;
    line.extend_from_slice(b"; ")?;
    Ok(())
}

/// Appends the line of a job, which a shell runs in the background. It runs `env` with the
/// variables, the shell and the command, each as one word. `printf` feeds the command its input; a
/// command without input reads nothing. `timeout` ends the command, if the job has a timeout. If
/// there is a file `lock`, `flock` locks it while the command runs, and the command isn't run if
/// the file is already locked. If there is a file `log`, the output is appended to it, and the
/// caller must put a [front](push_log_front) before the line. The line is one line if the
/// variables, the shell, the command and the files have no line feed.
/// [`lines_are_taken_as_they_are`](crate::laws::lines_are_taken_as_they_are) says how a shell reads
/// it.
pub fn push_line(
    line: &mut Vec<u8>,
    job: &ShellJob<'_>,
    lock: Option<&[u8]>,
    log: Option<&[u8]>,
) -> Result<(), AllocError>
    ensures { OnOk result (line.new.items ≡ line.old.items
        ++ job_tail (work_of job.now) (path_view lock.entry) (path_view log.entry)) }
{
    push_lock_front(line, lock)?;
    push_fed(line, job)?;
    push_lock_end(line, lock)?;
    push_end(line, log)?;
    Ok(())
}
