//! What is probably a mistake in an entry, and its message.

ghost use Rattle.std.specs.Prelude.{◌≡◌};
ghost use Rattle.cron_tab_context.specs.Messages.{change_text};

use cron_tab_agenda::ChangedDay;
use std::fmt;

/// What is probably a mistake in an entry, judged by what is around it.
#[derive(Clone, Copy, Debug, PartialEq, Eq)]
pub enum ContextWarning {
    /// The file is read as a user's crontab and seems to be the system's, whose entries name a
    /// user. Its path is `/etc/crontab` or below `/etc/cron.d`, or the first word of each command
    /// is `root`.
    SystemCrontab,
    /// A day within 366 days on which a transition skips a fixed time of the entry, or doubles it.
    ChangedDay(ChangedDay),
    /// A clock fires the entry, but not within 366 days.
    NoFire,
    /// The entry in the line with this number, above, has the same times, command, user and zone.
    Twin(usize),
}

/// A warning of an entry.
#[derive(Clone, Copy, Debug, PartialEq, Eq)]
pub struct Found {
    /// The number of the entry's line, from 1 on.
    pub line: usize,
    pub warning: ContextWarning,
}

fn change_text(skipped: bool, doubled: bool) -> &'static str
    ensures { result.now ≡ change_text skipped doubled }
{
    match (skipped, doubled) {
        (true, true) => ": the clock skips a fixed time of the entry, and shows one twice",
        (true, false) => ": the clock skips a fixed time of the entry",
        (false, _) => ": the clock shows a fixed time of the entry twice",
    }
}

impl fmt::Display for ContextWarning {
    ghost use Rattle.std.specs.Prelude.{Some};
    ghost use Rattle.cron_tab_context.specs.Messages.{context_text};

    ghost output = { λ w. Some (context_text w) };

    fn fmt<W: fmt::Write>(&self, f: &mut fmt::Formatter<W>) -> fmt::Result {
        match self {
            ContextWarning::SystemCrontab => f.write_str(
                "the file seems to be a system crontab: check it with --system, since its entries name a user",
            ),
            ContextWarning::ChangedDay(day) => {
                let (date, change) = (day.date, change_text(day.skipped, day.doubled));
                write!(f, "{date}{change}")
            }
            ContextWarning::NoFire => f.write_str("it has no fire within 366 days"),
            ContextWarning::Twin(line) => {
                write!(f, "line {line} has the same times, command, user and zone")
            }
        }
    }
}
