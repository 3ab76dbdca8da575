//! The entries of crontabs, added to an agenda, which knows when each fires next. Each entry has a
//! source: its file, user, command and input.

ghost use Rattle.std.specs.Prelude.{◌≡◌, IfErr, OnOk, Some, map};
ghost use Rattle.jiff.specs.Words.{plain_zone};
ghost use Rattle.cron_tab_lines.specs.Files.{file_lines};
ghost use Rattle.cron_tab_lines.specs.Views.{bytes_view, file_line_view};
ghost use Rattle.cron_tab_agenda.specs.Adding.{start_of};
ghost use Rattle.cron_tab_answers.specs.TabFiles.{FailsAt, IsNotLoaded, LoadsIn, LoadsLine, LoadsLines, agenda_view, given, nothing};

use cron_agenda::{AddError, Agenda};
use cron_tab_agenda::{Clock, TabEntry, TabFile, add_line};
use cron_tab_lines::{FileLine, Line, Lines, NamedZone, zone_below};
use cron_tab_rows::source::Source;
use jiff::Timestamp;
use jiff::tz::TimeZone;
use std::alloc::Global;

/// Entries of crontabs in an agenda, each with its source: its file, user, command and input.
#[derive(Drop)]
pub struct TabAgenda<'a> {
    pub agenda: Agenda<TabEntry>,
    /// The source of each entry. Its index is the entry's id.
    pub sources: Vec<Source<'a>>,
}

/// How entries fire, and after which instant.
#[derive(Clone, Copy)]
pub struct Firing<'a> {
    pub clock: Clock,
    /// Entries fire after this instant.
    pub start: Timestamp,
    /// The zones that `CRON_TZ` may name.
    pub names: &'a [NamedZone<'a>],
}

impl<'a> TabAgenda<'a> {
    /// Returns an agenda without entries.
    pub fn new(alloc: Global) -> TabAgenda<'a>
        ensures { agenda_view result ≡ nothing }
    {
        TabAgenda {
            agenda: Agenda::new(alloc),
            sources: Vec::new(alloc),
        }
    }
}

// Adds the entry of a line with its source, if the line is an entry that fires again.
fn load_line<'a>(
    tabs: &mut TabAgenda<'a>,
    file: Option<&'a str>,
    line: &FileLine<'a>,
    firing: &Firing<'_>,
    zones: &[TimeZone<'_>],
    zone: usize,
) -> Result<(), AddError>
    ensures ok { OnOk result (LoadsLine
        (start_of (map plain_zone zones.now) zone firing.now.clock firing.now.start.nanosecond)
        (bytes_view file.entry) (file_line_view line.now)
        (agenda_view tabs.old) (agenda_view tabs.new)) }
    ensures err { IfErr result (IsNotLoaded (given (map plain_zone zones.now) firing.now)
        (Some zone) (file_line_view line.now) (agenda_view tabs.old)) }
{
    let Ok(Line::Entry(entry)) = &line.read else {
        return Ok(());
    };
    let source = Source::of(file, entry);
    match add_line(
        &mut tabs.agenda,
        line,
        firing.clock,
        firing.start,
        zones,
        zone,
    ) {
        Ok(Some(_)) => match tabs.sources.push(source) {
            Ok(()) => Ok(()),
            Err(_) => Err(AddError::OutOfMemory),
        },
        Ok(None) => Ok(()),
        Err(error) => Err(error),
    }
}

// Adds the entry of a line in the zone with number `here`. If `here` is `None`, the entry is left
// out.
fn load_in<'a>(
    tabs: &mut TabAgenda<'a>,
    file: Option<&'a str>,
    line: &FileLine<'a>,
    firing: &Firing<'_>,
    zones: &[TimeZone<'_>],
    here: Option<usize>,
) -> Result<(), AddError>
    ensures ok { OnOk result (LoadsIn (given (map plain_zone zones.now) firing.now) here
        (bytes_view file.entry) (file_line_view line.now)
        (agenda_view tabs.old) (agenda_view tabs.new)) }
    ensures err { IfErr result (IsNotLoaded (given (map plain_zone zones.now) firing.now)
        here (file_line_view line.now) (agenda_view tabs.old)) }
{
    match here {
        Some(zone) => load_line(tabs, file, line, firing, zones, zone),
        None => Ok(()),
    }
}

/// Adds the entries of a crontab. They fire in the first of `zones`. After a line that sets
/// `CRON_TZ`, they fire in the zone that it names. If that is none of the names, the entries after
/// the line are left out. Refused lines are skipped, and so are entries that never fire again.
/// After an error the entries of the earlier lines remain.
pub fn load_file<'a>(
    tabs: &mut TabAgenda<'a>,
    file: &TabFile<'a>,
    firing: &Firing<'_>,
    zones: &[TimeZone<'_>],
) -> Result<(), AddError>
    ensures ok { OnOk result (LoadsLines (given (map plain_zone zones.now) firing.now) (Some 0)
        (bytes_view file.now.name) (file_lines file.now.kind file.now.bytes.now)
        (agenda_view tabs.old) (agenda_view tabs.new)) }
    ensures err { IfErr result (FailsAt (given (map plain_zone zones.now) firing.now) (Some 0)
        (bytes_view file.now.name) (file_lines file.now.kind file.now.bytes.now)
        (agenda_view tabs.old)) }
{
    let mut here = Some(0);
    for line in Lines::of(file.kind, file.bytes) {
        load_in(tabs, file.name, &line, firing, zones, here)?;
        here = zone_below(firing.names, here, &line);
    }
    Ok(())
}
