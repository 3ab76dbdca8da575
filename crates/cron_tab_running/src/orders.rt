//! What a run takes: its options, and the crontabs.

use cron_agenda_scheduler::Lateness;
use cron_tab_agenda::Clock;
use cron_tab_tasks::Orders;

/// How the entries of crontabs are run.
#[derive(Clone, Copy)]
pub struct RunOrders<'a> {
    /// Which entries are run, and how they are written.
    pub tasks: Orders<'a>,
    /// The rule at clock changes: each entry's own, or one for all entries.
    pub clock: Clock,
    /// Which of an entry's due fires are run. The others are too late, and are passed over.
    pub lateness: Lateness,
    /// True if the entries of `@reboot` are run once at the start.
    pub reboot: bool,
    /// How many runs at most; runs of `@reboot` entries aren't counted.
    pub most: u64,
    /// True if `follow` ends when no entry fires any more, as it should if the crontabs can't
    /// change. Else it tells that once, and waits for a change.
    pub ends: bool,
}

/// A crontab: its name and its content.
#[derive(Clone, Copy)]
pub struct TabFile<'a> {
    /// The crontab's name in messages.
    pub name: &'a str,
    pub bytes: &'a [u8],
}
