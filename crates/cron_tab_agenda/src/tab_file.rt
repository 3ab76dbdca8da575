//! A crontab file.

use cron_tab_lines::Crontab;

/// A crontab and the bytes of its file.
#[derive(Clone, Copy)]
pub struct TabFile<'a> {
    /// Whether it is a user's crontab or a system crontab, whose entries name a user.
    pub kind: Crontab,
    /// The file's name, if several are read.
    pub name: Option<&'a str>,
    pub bytes: &'a [u8],
}
