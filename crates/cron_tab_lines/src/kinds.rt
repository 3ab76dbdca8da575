//! What a line of a crontab is.

use cron_crontab::Expression;

/// Whose crontab it is.
#[derive(Clone, Copy, Debug, PartialEq, Eq)]
pub enum Crontab {
    /// A user's own, whose entries name no user.
    User,
    /// The system's, whose entries name a user in front of the command.
    System,
}

/// A setting: a name, and the value that it has for the entries below.
#[derive(Clone, Copy, Debug, PartialEq, Eq)]
pub struct Setting<'a> {
    pub name: &'a [u8],
    pub value: &'a [u8],
}

/// An entry: when a command runs, the user that it runs as, and the command.
#[derive(Drop)]
pub struct Entry<'a> {
    pub expression: Expression,
    /// The user. Only entries of system crontabs have one.
    pub user: Option<&'a [u8]>,
    /// The bytes before the first percent sign that no backslash escapes, unchanged from the line.
    pub command: &'a [u8],
    /// The bytes after the percent sign that ends the command, unchanged from the line. `None` if
    /// no percent sign does.
    pub input: Option<&'a [u8]>,
}

/// What a line is.
#[derive(Drop)]
pub enum Line<'a> {
    /// Only spaces and tabs, or nothing.
    Blank,
    /// A comment: `#` is the first byte after any spaces and tabs.
    Comment,
    /// A setting whose name isn't `CRON_TZ`.
    Setting(Setting<'a>),
    /// The value of `CRON_TZ`. It isn't checked here whether it names a zone.
    Zone(&'a [u8]),
    Entry(Entry<'a>),
}
