//! A crontab of the system that is read as a user's.

ghost use Rattle.std.specs.Prelude.{◌≡◌};
ghost use Rattle.std.specs.List.{list_all};
ghost use Rattle.cron_tab_lines.specs.Files.{file_lines};
ghost use Rattle.cron_tab_lines.specs.Views.{file_line_view};
ghost use Rattle.cron_tab_context.specs.Systems.{first_entry, is_root, is_system_path, may_name_root, seems_system, system_line};

use cron_tab_lines::{Crontab, FileLine, Line, Lines};

fn is_system_path(path: &str) -> bool
    ensures { result ≡ is_system_path path.now }
{
    let path = path.as_bytes();
    path == b"/etc/crontab".as_slice() || path.starts_with(b"/etc/cron.d/".as_slice())
}

fn is_root(command: &[u8]) -> bool
    ensures { result ≡ is_root command.now }
{
    command == b"root".as_slice()
        || command.starts_with(b"root ".as_slice())
        || command.starts_with(b"root\t".as_slice())
}

// Returns true if the line is no entry, or one whose command begins with the word `root`.
fn may_name_root(line: &FileLine<'_>) -> bool
    ensures { result ≡ may_name_root (file_line_view line.now).outcome }
{
    match &line.read {
        Ok(Line::Entry(entry)) => is_root(entry.command),
        _ => true,
    }
}

fn all_name_root(lines: Lines<'_>) -> bool
    ensures { result ≡ list_all (λ line. may_name_root line.outcome) lines.entry }
{
    for line in lines {
        if !may_name_root(&line) {
            return false;
        }
    }
    true
}

// The number of the first line that is an entry.
fn first_entry(lines: Lines<'_>) -> Option<usize>
    ensures { result ≡ first_entry lines.entry }
{
    for line in lines {
        if let Ok(Line::Entry(_)) = &line.read {
            return Some(line.number);
        }
    }
    None
}

/// The line of a file's first entry, if the file seems to be the system's and is read as a user's.
/// It seems so by its path, or if the first word of each command is `root`.
pub(crate) fn system_line(kind: Crontab, path: &str, file: &[u8]) -> Option<usize>
    ensures { result ≡ system_line kind path.now (file_lines kind file.now) }
{
    match kind {
        Crontab::User if is_system_path(path) || all_name_root(Lines::of(kind, file)) => {
            first_entry(Lines::of(kind, file))
        }
        _ => None,
    }
}
