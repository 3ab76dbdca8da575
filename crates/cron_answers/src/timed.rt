//! Fires as lines whose times a terminal shows, or that a format of `strftime` makes.

ghost use Rattle.std.specs.Prelude.{◌≡◌, IfErr, IfOk, OnOk};
ghost use Rattle.jiff.specs.Words.{plain_zone};
ghost use Rattle.cron_dues.specs.DueText.{due_text, shown};
ghost use Rattle.cron_looks.specs.Times.{Adds, IsTimeError};
ghost use Rattle.cron_moments.specs.MomentText.{moment_text};
ghost use Rattle.cron_plans.specs.Tables.{has_table};
ghost use Rattle.cron_answers.specs.Fires.{dues_of, first_of, is_none_wanted, moments_of};
ghost use Rattle.cron_answers.specs.TimedLines.{AreLines, AreLinesBy, IsLine, IsLinesError, IsLinesErrorBy};

use crate::back::{dues_before, moments_before};
use crate::fires::{Asked, is_none_wanted, one_less};
use crate::left::Left;
use crate::row::Told;
use cron_fires::{ClockChanges, Dues, Fires};
use cron_looks::{Times, push_time};
use cron_plans::table::Table;
use jiff::tz::TimeZone;
use jiff_core::Error;
use std::alloc::Global;

// Appends the line of a fire.
fn push_line<F: Told>(
    alloc: Global,
    lines: &mut Vec<u8>,
    times: &Times<'_>,
    fire: &F,
) -> Result<(), Error>
    ensures ok { OnOk result (Adds (IsLine times.now (F.text fire.now) (F.shown fire.now))
        lines.old.items lines.new.items) }
    ensures err { IfErr result (IsTimeError times.now (F.shown fire.now)) }
{
    let text = fire.text();
    push_time(alloc, lines, times, text.as_slice(), &fire.shown())?;
    lines.push(b'\n')?;
    Ok(())
}

// The lines of the first `most` fires that are left, or of all if `most` is `None`.
fn lines_of<F: Told, L: Left<F>>(
    alloc: Global,
    left: &mut L,
    most: Option<u64>,
    times: &Times<'_>,
) -> Result<Vec<u8>, Error>
    ensures ok { IfOk result (λ lines. AreLines times.now F.text F.shown
        (first_of most (L.left left.old)) lines.items) }
    ensures err { IfErr result (IsLinesError times.now F.shown (first_of most (L.left left.old))) }
{
    let mut lines = Vec::new(alloc);
    let mut more = most;
    'fires: while !is_none_wanted(more) {
        let Some(fire) = left.take_first() else {
            return Ok(lines);
        };
        push_line(alloc, &mut lines, times, &fire)?;
        more = one_less(more);
    }
    Ok(lines)
}

// The lines of the requested times when the clock shows a match.
fn moments_lines(
    alloc: Global,
    table: &Table<'_>,
    asked: &Asked,
    zone: &TimeZone<'_>,
    times: &Times<'_>,
) -> Result<Vec<u8>, Error>
    ensures ok { IfOk result (λ lines. AreLines times.now moment_text (λ moment. moment)
        (moments_of asked.now (has_table table.now) (plain_zone zone.now)) lines.items) }
    ensures err { IfErr result (IsLinesError times.now (λ moment. moment)
        (moments_of asked.now (has_table table.now) (plain_zone zone.now))) }
{
    match *asked {
        Asked::Next(start, count) => {
            let mut run = Fires::after(table, start, zone);
            lines_of(alloc, &mut run, Some(count), times)
        }
        Asked::Back(end, count) => {
            let mut run = moments_before(table, end, zone);
            lines_of(alloc, &mut run, Some(count), times)
        }
        Asked::Between(start, end) => {
            let mut run = Fires::between(table, start, end, zone);
            lines_of(alloc, &mut run, None, times)
        }
    }
}

// The lines of the requested matches, each once.
fn dues_lines(
    alloc: Global,
    table: &Table<'_>,
    asked: &Asked,
    zone: &TimeZone<'_>,
    times: &Times<'_>,
) -> Result<Vec<u8>, Error>
    ensures ok { IfOk result (λ lines. AreLines times.now due_text shown
        (dues_of asked.now (has_table table.now) (plain_zone zone.now)) lines.items) }
    ensures err { IfErr result (IsLinesError times.now shown
        (dues_of asked.now (has_table table.now) (plain_zone zone.now))) }
{
    match *asked {
        Asked::Next(start, count) => {
            let mut run = Dues::after(table, start, zone);
            lines_of(alloc, &mut run, Some(count), times)
        }
        Asked::Back(end, count) => {
            let mut run = dues_before(table, end, zone);
            lines_of(alloc, &mut run, Some(count), times)
        }
        Asked::Between(start, end) => {
            let mut run = Dues::between(table, start, end, zone);
            lines_of(alloc, &mut run, None, times)
        }
    }
}

/// The lines of the requested fires, by the rule `changes`. All of them are kept in memory.
pub(crate) fn lines_by(
    alloc: Global,
    table: &Table<'_>,
    changes: ClockChanges,
    asked: &Asked,
    zone: &TimeZone<'_>,
    times: &Times<'_>,
) -> Result<Vec<u8>, Error>
    ensures ok { IfOk result (λ lines. AreLinesBy changes times.now asked.now (has_table table.now)
        (plain_zone zone.now) lines.items) }
    ensures err { IfErr result (IsLinesErrorBy changes times.now asked.now (has_table table.now)
        (plain_zone zone.now)) }
{
    match changes {
        ClockChanges::AsShown => moments_lines(alloc, table, asked, zone, times),
        ClockChanges::Once => dues_lines(alloc, table, asked, zone, times),
    }
}
