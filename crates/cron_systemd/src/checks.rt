//! What a unit can hold.

ghost use Rattle.std.specs.Prelude.{◌≡◌, ◌==◌, ◌-◌, length, map, not, slice_index};
ghost use Rattle.std.specs.List.{list_all};
ghost use Rattle.std.specs.Str.{is_utf8};
ghost use Rattle.cron_shell.specs.Lines.{path_view, variable_view};
ghost use Rattle.cron_systemd.specs.Sayable.{begins_with_slash, is_byte, is_calendar, is_path, is_user, is_user_byte, is_user_name};
ghost use Rattle.cron_systemd.specs.Units.{begins, behind_backslash, is_printable, next_end, stands};
ghost use Rattle.cron_systemd.specs.declared.checks.End.TheVariants.{Plain};
ghost use Rattle.cron_systemd.specs.Values.{begins_name, is_bare, is_name, is_name_byte, is_shown, is_text, is_variable};

use cron_shell::Variable;

/// Whether no byte is NUL.
pub(crate) fn are_bytes(text: &[u8]) -> bool
    ensures { result ≡ list_all is_byte text.now }
{
    text.iter().all(|byte| *byte != 0)
}

fn is_bare(byte: u8) -> bool
    ensures { result ≡ is_bare byte }
{
    byte.is_ascii_alphanumeric()
        || byte == b'+'
        || byte == b'-'
        || byte == b'.'
        || byte == b'/'
        || byte == b'_'
}

fn are_bare(text: &[u8]) -> bool
    ensures { result ≡ list_all is_bare text.now }
{
    text.iter().all(|byte| is_bare(*byte))
}

fn begins_with_slash(path: &[u8]) -> bool
    ensures { result ≡ begins_with_slash path.now }
{
    match path {
        [first, ..] => *first == b'/',
        [] => false,
    }
}

fn ends_with_slash(path: &[u8]) -> bool
    ensures { result ≡ (slice_index path.now (length path.now - 1) == 47) }
{
    match path.last() {
        Some(last) => *last == b'/',
        None => false,
    }
}

/// Whether a text is a program's path.
pub(crate) fn is_path(path: &[u8]) -> bool
    ensures { result ≡ is_path path.now }
{
    begins_with_slash(path) && path.len() < 256 && !ends_with_slash(path) && are_bare(path)
}

fn begins_name(byte: u8) -> bool
    ensures { result ≡ begins_name byte }
{
    (byte.is_ascii_alphanumeric() && 57 < byte) || byte == b'_'
}

fn are_name_bytes(name: &[u8]) -> bool
    ensures { result ≡ list_all is_name_byte name.now }
{
    name.iter()
        .all(|byte| byte.is_ascii_alphanumeric() || *byte == b'_')
}

fn is_name(name: &[u8]) -> bool
    ensures { result ≡ is_name name.now }
{
    match name {
        [] => false,
        [first, rest @ ..] => begins_name(*first) && are_name_bytes(rest),
    }
}

fn is_shown(byte: u8) -> bool
    ensures { result ≡ is_shown byte }
{
    (31 < byte || byte == b'\t') && byte != 127
}

fn are_shown(value: &[u8]) -> bool
    ensures { result ≡ list_all is_shown value.now }
{
    value.iter().all(|byte| is_shown(*byte))
}

fn is_utf8(value: &[u8]) -> bool
    ensures { result ≡ is_utf8 value.now }
{
    match str::from_utf8(value) {
        Ok(_) => true,
        Err(_) => false,
    }
}

fn is_text(value: &[u8]) -> bool
    ensures { result ≡ is_text value.now }
{
    are_shown(value) && is_utf8(value)
}

/// Whether systemd takes a variable with its value.
pub(crate) fn is_variable(variable: &Variable<'_>) -> bool
    ensures { result ≡ is_variable (variable_view variable.now) }
{
    is_name(variable.name) && is_text(variable.value)
}

/// Whether systemd takes each of the variables.
pub(crate) fn are_variables(variables: &[Variable<'_>]) -> bool
    ensures { result ≡ list_all is_variable (map variable_view variables.now) }
{
    for variable in variables {
        if !is_variable(variable) {
            return false;
        }
    }
    true
}

fn is_user_byte(byte: u8) -> bool
    ensures { result ≡ is_user_byte byte }
{
    byte.is_ascii_alphanumeric() || byte == b'-' || byte == b'_'
}

fn are_user_bytes(name: &[u8]) -> bool
    ensures { result ≡ list_all is_user_byte name.now }
{
    name.iter().all(|byte| is_user_byte(*byte))
}

fn is_user_name(name: &[u8]) -> bool
    ensures { result ≡ is_user_name name.now }
{
    match name {
        [] => false,
        [first, rest @ ..] => { begins_name(*first) && rest.len() < 31 && are_user_bytes(rest) }
    }
}

/// Whether systemd takes the user's name, if there is one.
pub(crate) fn is_user(user: Option<&[u8]>) -> bool
    ensures { result ≡ is_user (path_view user.entry) }
{
    match user {
        Some(name) => is_user_name(name),
        None => true,
    }
}

/// What the bytes of a line so far end with.
#[derive(Clone, Copy)]
enum End {
    Plain,
    Blank,
    Backslash,
}

fn behind_backslash(end: End) -> End
    ensures { result ≡ behind_backslash end }
{
    match end {
        End::Plain | End::Blank => End::Backslash,
        End::Backslash => End::Plain,
    }
}

fn next_end(end: End, byte: u8) -> End
    ensures { result ≡ next_end end byte }
{
    match byte {
        b' ' => End::Blank,
        b'\\' => behind_backslash(end),
        _ => End::Plain,
    }
}

fn is_printable(byte: u8) -> bool
    ensures { result ≡ is_printable byte }
{
    31 < byte && byte < 127
}

// Whether systemd reads a value as it stands.
fn stands(value: &[u8]) -> bool
    ensures { result ≡ stands value.now Plain }
{
    let mut end = End::Plain;
    for byte in value {
        if !is_printable(*byte) {
            return false;
        }
        end = next_end(end, *byte);
    }
    matches!(end, End::Plain)
}

fn begins(value: &[u8]) -> bool
    ensures { result ≡ begins value.now }
{
    match value {
        [] => false,
        [first, ..] => *first != b' ',
    }
}

fn has_no_percent(line: &[u8]) -> bool
    ensures { result ≡ list_all (λ c. not (c == 37)) line.now }
{
    line.iter().all(|byte| *byte != b'%')
}

/// Whether a text is a value of `OnCalendar`, as far as lines go: it may be no calendar.
pub(crate) fn is_calendar(line: &[u8]) -> bool
    ensures { result ≡ is_calendar line.now }
{
    stands(line) && begins(line) && has_no_percent(line)
}
