//! The entries that text is written for, and the form of that text.

ghost use Rattle.std.specs.Prelude.{◌≡◌};
ghost use Rattle.cron_tab_lines.specs.Views.{entry_view, bytes_view};
ghost use Rattle.cron_tab_tasks.specs.Tasks.{is_wanted, names_fires};

use cron_tab_lines::{Crontab, Entry, NamedZone};

/// How a shell runs entries.
#[derive(Clone, Copy)]
pub struct Ways<'a> {
    /// The number of seconds after which a command is ended. `None` for no limit.
    pub timeout: Option<u64>,
    /// The folder of the lock files. With it, an entry is passed over while its last command runs.
    pub locks: Option<&'a [u8]>,
    /// The folder of the log files, one for each entry. The output of commands is appended to them.
    pub logs: Option<&'a [u8]>,
}

/// Commands run without a time limit, also at the same time as one another, and write to the
/// shell's output.
pub const PLAIN: Ways<'static> = Ways {
    timeout: None,
    locks: None,
    logs: None,
};

/// The form of the text that is written for an entry.
#[derive(Clone, Copy)]
pub enum Form<'a> {
    /// The command, as a shell gets it, and a line feed.
    Command,
    /// A line that makes a shell run the command in the background.
    Shell(Ways<'a>),
}

/// Returns true if each line needs a front that writes the fire to a log file.
pub fn names_fires(form: &Form<'_>) -> bool
    ensures { result ≡ names_fires form.now }
{
    match form {
        Form::Command => false,
        Form::Shell(ways) => ways.logs.is_some(),
    }
}

/// The entries that text is written for, and the form of that text.
#[derive(Clone, Copy)]
pub struct Orders<'a> {
    /// Whose crontabs they are.
    pub kind: Crontab,
    /// The form of the text that is written for an entry.
    pub form: Form<'a>,
    /// The user whose entries are selected; `None` selects all. Entries of users' own crontabs name
    /// no user.
    pub user: Option<&'a [u8]>,
    /// The zones that `CRON_TZ` may name.
    pub names: &'a [NamedZone<'a>],
}

/// Returns true if `entry` is selected: if `wanted` is `None`, or is the entry's user.
pub(crate) fn is_wanted(wanted: Option<&[u8]>, entry: &Entry<'_>) -> bool
    ensures { result ≡ is_wanted (bytes_view wanted.entry) (entry_view entry.now).user }
{
    match (wanted, entry.user) {
        (None, _) => true,
        (Some(name), Some(user)) => name == user,
        (Some(_), None) => false,
    }
}
