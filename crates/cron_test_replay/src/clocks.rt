//! A clock that follows a script.

use anyhow::{Context, Error, Result, ensure};
use cron_scheduler::AlarmClock;
use jiff::Timestamp;
use std::fmt::Write;

/// A clock with a list of words. Each word is the instant that it shows next, or how it fails:
/// `look-fails` or `wait-fails`.
#[derive(Drop)]
pub(crate) struct ScriptedClock<'a> {
    /// The script: what the clock shows next, or how it fails, one after another.
    pub(crate) words: &'a [&'a str],
    /// The instants that were waited for.
    pub(crate) waits: String,
    /// The number of words that were used.
    pub(crate) count: usize,
}

impl AlarmClock for ScriptedClock<'_> {
    type Error = Error;

    fn now(&mut self) -> Result<Timestamp> {
        let word = self.words.get(self.count).context("no word is left")?;
        self.count = self.count.saturating_add(1);
        ensure!(*word != "look-fails", "it can't be read");
        Ok(word.parse::<Timestamp>()?)
    }

    fn sleep_until(&mut self, instant: Timestamp) -> Result<()> {
        if !self.waits.is_empty() {
            self.waits.push_str(", ")?;
        }
        write!(self.waits, "{instant}")?;
        let word = self.words.get(self.count).context("no word is left")?;
        ensure!(*word != "wait-fails", "it can't wait");
        Ok(())
    }
}

/// Returns `noted`, or `none` if it is empty.
pub(crate) fn or_none(noted: &str) -> &str {
    if noted.is_empty() { "none" } else { noted }
}
