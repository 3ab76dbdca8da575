//! The entries of a crontab, as its file has them: each with its line, and with the zone that is
//! set before it.
ghost use Rattle.std.specs.Prelude.{◌≡◌, ◌++◌, [], IfOk, OnOk, map};
ghost use Rattle.cron_crontab.specs.Views.{expression_view};
ghost use Rattle.cron_tab_lines.specs.Files.{without_feed};
ghost use Rattle.cron_tab_lines.specs.Views.{file_line_view};
ghost use Rattle.cron_tab_comparing.specs.Entries.{entries_in, entry_in, schedules_of, view, zone_below};

use cron_crontab::Expression;
use cron_tab_lines::{FileLine, Line, Lines};
use cron_units::fields::ScheduleFields;
use std::alloc::{AllocError, Global};

/// An entry of a crontab.
#[derive(Drop)]
pub(crate) struct Known<'a> {
    /// The number of the entry's line, from 1 on.
    pub(crate) line: usize,
    /// The entry's line, without the line feed.
    pub(crate) text: &'a [u8],
    /// The value of the last `CRON_TZ` before the entry's line. It is empty if there is none.
    pub(crate) zone: &'a [u8],
    pub(crate) user: Option<&'a [u8]>,
    pub(crate) command: &'a [u8],
    pub(crate) input: Option<&'a [u8]>,
    /// The entry's schedules: none if it is `@reboot`.
    pub(crate) schedules: Vec<ScheduleFields>,
}

fn without_feed(bytes: &[u8]) -> &[u8]
    ensures { result.now ≡ without_feed bytes.now }
{
    match bytes.last() {
        Some(byte) if *byte == b'\n' => &bytes[..bytes.len() - 1],
        _ => bytes,
    }
}

// The schedules of an expression: none for `@reboot`.
fn schedules_of(alloc: Global, expression: &Expression) -> Result<Vec<ScheduleFields>, AllocError>
    ensures { IfOk result (λ schedules. schedules.items
        ≡ schedules_of (expression_view expression.now)) }
{
    let mut schedules = Vec::new(alloc);
    if let Expression::Fires(some) = expression {
        schedules.extend_from_slice(some.as_slice())?;
    }
    Ok(schedules)
}

// Appends the entry of a line, if the line is an entry. `zone` is the value of the last `CRON_TZ`
// before it.
fn push_line<'a>(
    alloc: Global,
    entries: &mut Vec<Known<'a>>,
    line: &FileLine<'a>,
    zone: &'a [u8],
) -> Result<(), AllocError>
    ensures { OnOk result (map view entries.new.items ≡ map view entries.old.items
        ++ entry_in zone.now (file_line_view line.now) (file_line_view line.now).outcome) }
{
    let Ok(Line::Entry(entry)) = &line.read else {
        return Ok(());
    };
    let schedules = schedules_of(alloc, &entry.expression)?;
    entries.push(Known {
        line: line.number,
        text: without_feed(line.bytes),
        zone,
        user: entry.user,
        command: entry.command,
        input: entry.input,
        schedules,
    })?;
    Ok(())
}

// The value of the last `CRON_TZ` up to and including a line. `above` is its value before the line.
fn zone_below<'a>(above: &'a [u8], line: &FileLine<'a>) -> &'a [u8]
    ensures { result.now ≡ zone_below above.now (file_line_view line.now).outcome }
{
    match &line.read {
        Ok(Line::Zone(value)) => *value,
        _ => above,
    }
}

/// The entries of `lines`, in their order.
pub(crate) fn entries_of<'a>(alloc: Global, lines: Lines<'a>) -> Result<Vec<Known<'a>>, AllocError>
    ensures { IfOk result (λ entries. map view entries.items ≡ entries_in [] lines.entry) }
{
    let mut entries = Vec::new(alloc);
    let mut zone = b"".as_slice();
    for line in lines {
        push_line(alloc, &mut entries, &line, zone)?;
        zone = zone_below(zone, &line);
    }
    Ok(entries)
}
