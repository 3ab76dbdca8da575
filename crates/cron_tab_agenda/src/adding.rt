//! The entries of crontab lines, added to an agenda.

ghost use Rattle.std.specs.Prelude.{◌≡◌, map};
ghost use Rattle.jiff.specs.Words.{plain_zone};
ghost use Rattle.cron_tab_lines.specs.Views.{file_line_view};
ghost use Rattle.cron_tab_agenda.specs.Adding.{AddsLine, AddsLines, changes_of, start_of};

use crate::error::LineError;
use crate::tab_entry::TabEntry;
use cron_agenda::{AddError, Agenda};
use cron_fires::ClockChanges;
use cron_tab_lines::{FileLine, Lines, NamedZone, zone_below};
use cron_tab_warnings::{follows_clock, text_of};
use jiff::Timestamp;
use jiff::tz::TimeZone;

/// The rule of entries when the clock changes.
#[derive(Clone, Copy, Debug, PartialEq, Eq)]
pub enum Clock {
    /// Each entry by its own rule. An entry that follows the clock fires each time that the clock
    /// shows a match. An entry at a fixed time fires once for each match.
    Own,
    /// All entries by this rule, whether they follow the clock or not.
    Chosen(ClockChanges),
}

/// The rule of an entry whose line has these bytes.
pub fn changes_of(clock: Clock, bytes: &[u8]) -> ClockChanges
    ensures { result ≡ changes_of clock bytes.now }
{
    match clock {
        Clock::Chosen(changes) => changes,
        Clock::Own => {
            if follows_clock(text_of(bytes)) {
                ClockChanges::AsShown
            } else {
                ClockChanges::Once
            }
        }
    }
}

/// Adds the entry of `line`: its fires after `start`, in `zones[zone]`. It returns the entry's id.
/// `None` if the line is no entry, if no clock fires it (`@reboot`), or if it never fires again. An
/// error changes nothing.
pub fn add_line(
    agenda: &mut Agenda<TabEntry>,
    line: &FileLine<'_>,
    clock: Clock,
    start: Timestamp,
    zones: &[TimeZone<'_>],
    zone: usize,
) -> Result<Option<u64>, AddError>
    ensures { AddsLine (start_of (map plain_zone zones.now) zone clock start.nanosecond)
        (file_line_view line.now) agenda.old result agenda.new }
{
    let Some(table) = TabEntry::of(line) else {
        return Ok(None);
    };
    let changes = changes_of(clock, line.bytes);
    match agenda.add(table, changes, start, zones, zone) {
        Ok(id) => Ok(Some(id)),
        Err(AddError::NoFires) => Ok(None),
        Err(error) => Err(error),
    }
}

/// Adds the entries of a file's lines, in the order of the lines, with their fires after `start`.
/// They fire in `zones[zone]`, or, after a line that sets `CRON_TZ`, in the zone that it names.
/// Refused lines, settings and comments are skipped. It ends at the first line whose `CRON_TZ`
/// isn't in `names`, or whose entry can't be added. The entries of the lines before it are added
/// then.
pub fn add_lines(
    agenda: &mut Agenda<TabEntry>,
    lines: Lines<'_>,
    names: &[NamedZone<'_>],
    clock: Clock,
    start: Timestamp,
    zones: &[TimeZone<'_>],
    zone: usize,
) -> Result<(), LineError>
    ensures { AddsLines (start_of (map plain_zone zones.now) zone clock start.nanosecond)
        names.now lines.entry agenda.old result agenda.new }
{
    let mut here = zone;
    for line in lines {
        let Some(below) = zone_below(names, Some(here), &line) else {
            return Err(LineError::ZoneLine(line.number));
        };
        if let Err(error) = add_line(agenda, &line, clock, start, zones, here) {
            return Err(LineError::NotAdded(line.number, error));
        }
        here = below;
    }
    Ok(())
}
