//! The entries of crontabs, each with the fires that it missed.
ghost use Rattle.std.specs.Prelude.{◌≡◌, ◌++◌, ◌∷◌, ℕ, List, [], IfErr, IfOk, OnOk, Some, map};
ghost use Rattle.std.specs.Option.{option_map};
ghost use Rattle.jiff.specs.Words.{plain_zone};
ghost use Rattle.cron_crontab.specs.Views.{expression_view};
ghost use Rattle.cron_tab_agenda.specs.Tabs.{schedules_by};
ghost use Rattle.cron_tab_lines.specs.Files.{file_lines};
ghost use Rattle.cron_tab_lines.specs.Views.{bytes_view, entry_view, file_line_view};
ghost use Rattle.cron_tab_missed.specs.Entries as entries;
ghost use Rattle.cron_tab_missed.specs.Entries.{ends_in, fires_since, given, since_view, start_of, view, with_files, with_line, with_lines};
ghost use Rattle.cron_tab_missed.specs.Errors.{IsFilesError, IsLineError, IsLinesError};
ghost use Rattle.cron_tab_missed.specs.Inner.Counts.{Knows};
ghost use Rattle.cron_tab_missed.specs.Inner.Founds.{entry_with, found_view};
ghost use Rattle.cron_tab_missed.specs.Missed.{missed_of};

use crate::counting::{Missed, count_between, nothing};
use crate::error::MissedError;
use cron_agenda::EntryFire;
use cron_crontab::Expression;
use cron_fires::ClockChanges;
use cron_tab_agenda::{Clock, TabFile, changes_of};
use cron_tab_lines::{Entry, FileLine, Line, Lines, NamedZone, zone_below};
use cron_tab_rows::source::Source;
use cron_tab_running::{Counts, Noted, entry_of, take_one};
use jiff::Timestamp;
use jiff::tz::TimeZone;
use std::alloc::{AllocError, Global};
use std::collections::BTreeMap;

/// From when on the fires of entries count.
#[derive(Clone, Copy)]
pub enum Since<'a> {
    /// After this instant.
    After(Timestamp),
    /// After the instant of a run's note, for the entries that it notes. Other entries miss
    /// nothing.
    Noted(&'a Noted),
}

/// Which fires of entries are missed: those after an instant, and at or before `until`.
#[derive(Clone, Copy)]
pub struct Asked<'a> {
    /// The rule of entries when the clock changes.
    pub clock: Clock,
    pub since: Since<'a>,
    pub until: Timestamp,
    /// The zones that `CRON_TZ` may name.
    pub names: &'a [NamedZone<'a>],
}

/// An entry of a crontab, with the fires that it missed.
#[derive(Drop)]
pub struct TabMissed<'a> {
    /// The entry's file, and what the entry runs.
    pub source: Source<'a>,
    /// The number of the entry's line in its file, from 1 on.
    pub line: usize,
    /// How many fires it missed.
    pub count: u64,
    /// The first and the last of them; nothing if there are none.
    pub ends: Vec<EntryFire>,
}

/// The entries so far, each with the key that a note knows it by.
#[derive(Drop)]
pub(crate) struct Found<'a> {
    pub(crate) keys: Vec<Vec<u8>>,
    pub(crate) entries: Vec<TabMissed<'a>>,
}

// The count of each noted entry, if a note is asked.
fn counts_of<'n>(alloc: Global, since: &Since<'n>) -> Result<Counts<'n>, AllocError>
    ensures { IfOk result (Knows (since_view since.now) []) }
{
    match since {
        Since::After(_) => Ok(BTreeMap::new(alloc)),
        Since::Noted(noted) => noted.counts(alloc),
    }
}

// The instant after which the fires of an entry count. `None` if it isn't noted, where a note is
// asked. It lowers the entry's count by one: so of equal entries the first ones are noted.
fn start_of(since: &Since<'_>, counts: &mut Counts<'_>, key: &[u8]) -> Option<Timestamp>
    ensures is { (before : List (List ℕ)) → Knows (since_view since.now) before counts.old
        → option_map (λ t. t.nanosecond) result ≡ start_of (since_view since.now) before key.now }
    ensures knows { (before : List (List ℕ)) → Knows (since_view since.now) before counts.old
        → Knows (since_view since.now) (before ++ key.now ∷ []) counts.new }
{
    match since {
        Since::After(instant) => Some(*instant),
        Since::Noted(noted) => {
            if take_one(counts, key) {
                Some(noted.until)
            } else {
                None
            }
        }
    }
}

// The fires of an expression after `start`, at or before `now`. None without `start`, and none of
// `@reboot`.
fn missed_since(
    expression: &Expression,
    changes: ClockChanges,
    start: Option<Timestamp>,
    now: Timestamp,
    zone: &TimeZone<'_>,
) -> Missed
    ensures { result ≡ missed_of (fires_since (plain_zone zone.now) changes
        (schedules_by (expression_view expression.now)) (option_map (λ t. t.nanosecond) start)
        now.nanosecond) }
{
    match (expression, start) {
        (Expression::Fires(schedules), Some(start)) => {
            count_between(schedules.as_slice(), changes, start, now, zone)
        }
        _ => nothing(),
    }
}

fn push_key(keys: &mut Vec<Vec<u8>>, key: Vec<u8>) -> Result<(), AllocError>
    ensures { OnOk result (map (λ k. k.items) keys.new.items
        ≡ map (λ k. k.items) keys.old.items ++ key.items ∷ []) }
{
    keys.push(key)?;
    Ok(())
}

// The first and the last of the missed fires, as a list; nothing if there are none.
fn ends_of(alloc: Global, missed: &Missed) -> Result<Vec<EntryFire>, AllocError>
    ensures { IfOk result (λ ends. ends_in ends.items ≡ missed.now.ends) }
{
    let mut list = Vec::new(alloc);
    if let Some(ends) = &missed.ends {
        list.push(ends.first)?;
        list.push(ends.last)?;
    }
    Ok(list)
}

// Appends the entry of a line with what it missed.
fn push_missed<'a>(
    alloc: Global,
    entries: &mut Vec<TabMissed<'a>>,
    file: Option<&'a str>,
    line: &FileLine<'a>,
    entry: &Entry<'a>,
    missed: &Missed,
) -> Result<(), AllocError>
    ensures { OnOk result (map view entries.new.items ≡ map view entries.old.items
        ++ entry_with (bytes_view file.entry) (file_line_view line.now) (entry_view entry.now)
        missed.now ∷ []) }
{
    let ends = ends_of(alloc, missed)?;
    entries.push(TabMissed {
        source: Source::of(file, entry),
        line: line.number,
        count: missed.count,
        ends,
    })?;
    Ok(())
}

// Adds the entry of `line` in `zones[number]`, if the line is one.
fn add_entry<'a>(
    alloc: Global,
    found: &mut Found<'a>,
    counts: &mut Counts<'_>,
    file: Option<&'a str>,
    line: &FileLine<'a>,
    asked: &Asked<'_>,
    zones: &[TimeZone<'_>],
    number: usize,
) -> Result<(), MissedError>
    requires { Knows (since_view asked.now.since) (found_view found.old).keys counts.old }
    ensures ok { OnOk result (found_view found.new
        ≡ with_line (given (map plain_zone zones.now) asked.now) (bytes_view file.entry)
        (found_view found.old) (file_line_view line.now) (Some number)) }
    ensures knows { OnOk result
        (Knows (since_view asked.now.since) (found_view found.new).keys counts.new) }
    ensures err { IfErr result (IsLineError (given (map plain_zone zones.now) asked.now)
        (Some number) (file_line_view line.now)) }
{
    let Ok(Line::Entry(entry)) = &line.read else {
        return Ok(());
    };
    let Some(zone) = zones.get(number) else {
        return Err(MissedError::NoZone(line.number));
    };
    let key = entry_of(alloc, asked.names, number, line.bytes)?;
    let start = start_of(&asked.since, counts, key.as_slice());
    let changes = changes_of(asked.clock, line.bytes);
    let missed = missed_since(&entry.expression, changes, start, asked.until, zone);
    push_key(&mut found.keys, key)?;
    push_missed(alloc, &mut found.entries, file, line, entry, &missed)?;
    Ok(())
}

// Adds the entry of `line` in the zone with the number `here`. If `here` is `None`, the entry has
// no zone and is left out.
fn add_line<'a>(
    alloc: Global,
    found: &mut Found<'a>,
    counts: &mut Counts<'_>,
    file: Option<&'a str>,
    line: &FileLine<'a>,
    asked: &Asked<'_>,
    zones: &[TimeZone<'_>],
    here: Option<usize>,
) -> Result<(), MissedError>
    requires { Knows (since_view asked.now.since) (found_view found.old).keys counts.old }
    ensures ok { OnOk result (found_view found.new
        ≡ with_line (given (map plain_zone zones.now) asked.now) (bytes_view file.entry)
        (found_view found.old) (file_line_view line.now) here) }
    ensures knows { OnOk result
        (Knows (since_view asked.now.since) (found_view found.new).keys counts.new) }
    ensures err { IfErr result (IsLineError (given (map plain_zone zones.now) asked.now)
        here (file_line_view line.now)) }
{
    match here {
        Some(number) => add_entry(alloc, found, counts, file, line, asked, zones, number),
        None => Ok(()),
    }
}

// Adds the entries of a crontab. They fire in `zones[0]`, or, after a line that sets `CRON_TZ`, in
// the zone that it names. If that isn't in `asked.names`, the entries after it are left out.
fn add_file<'a>(
    alloc: Global,
    found: &mut Found<'a>,
    counts: &mut Counts<'_>,
    file: &TabFile<'a>,
    asked: &Asked<'_>,
    zones: &[TimeZone<'_>],
) -> Result<(), MissedError>
    requires { Knows (since_view asked.now.since) (found_view found.old).keys counts.old }
    ensures ok { OnOk result (found_view found.new
        ≡ with_lines (given (map plain_zone zones.now) asked.now) (bytes_view file.now.name)
        (found_view found.old) (Some 0) (file_lines file.now.kind file.now.bytes.now)) }
    ensures knows { OnOk result
        (Knows (since_view asked.now.since) (found_view found.new).keys counts.new) }
    ensures err { IfErr result (IsLinesError (given (map plain_zone zones.now) asked.now) (Some 0)
        (file_lines file.now.kind file.now.bytes.now)) }
{
    let mut here = Some(0);
    for line in Lines::of(file.kind, file.bytes) {
        add_line(alloc, found, counts, file.name, &line, asked, zones, here)?;
        here = zone_below(asked.names, here, &line);
    }
    Ok(())
}

/// The entries of crontabs, one file after another, in the order of their lines. Entries of
/// `@reboot` miss nothing. Refused lines are left out, and so are entries whose `CRON_TZ` names no
/// zone of `asked.names`.
#[tactic(auto, using(crate::proofs::EntryLemmas::memory_runs_out))]
pub(crate) fn entries_of<'a>(
    alloc: Global,
    files: &[TabFile<'a>],
    asked: &Asked<'_>,
    zones: &[TimeZone<'_>],
) -> Result<Vec<TabMissed<'a>>, MissedError>
    ensures ok { IfOk result (λ es. map view es.items
        ≡ (with_files (given (map plain_zone zones.now) asked.now) entries.nothing files.now).entries) }
    ensures err { IfErr result
        (IsFilesError (given (map plain_zone zones.now) asked.now) files.now) }
{
    let Ok(mut counts) = counts_of(alloc, &asked.since) else {
        return Err(MissedError::OutOfMemory);
    };
    let mut found = Found {
        keys: Vec::new(alloc),
        entries: Vec::new(alloc),
    };
    for file in files {
        add_file(alloc, &mut found, &mut counts, file, asked, zones)?;
    }
    let Found { entries, .. } = found;
    Ok(entries)
}
