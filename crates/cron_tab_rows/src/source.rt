//! Where an entry comes from.
ghost use Rattle.std.specs.Prelude.{◌≡◌};
ghost use Rattle.cron_tab_lines.specs.Views.{bytes_view, entry_view};
ghost use Rattle.cron_tab_rows.specs.Sources.{source_of, view};

use cron_tab_lines::Entry;

/// The file of an entry, and what the entry runs.
#[derive(Clone, Copy)]
pub struct Source<'a> {
    /// The name of the entry's file, if several files are read.
    pub file: Option<&'a str>,
    /// The user, in a system crontab.
    pub user: Option<&'a [u8]>,
    /// The command as the line has it, up to an unescaped percent sign.
    pub command: &'a [u8],
    /// The command's input, which follows the percent sign.
    pub input: Option<&'a [u8]>,
}

impl<'a> Source<'a> {
    /// The source of an entry of this file.
    pub fn of(file: Option<&'a str>, entry: &Entry<'a>) -> Source<'a>
        ensures { view result ≡ source_of (bytes_view file.entry) (entry_view entry.now) }
    {
        Source {
            file,
            user: entry.user,
            command: entry.command,
            input: entry.input,
        }
    }
}
