//! The swaps of a file.

ghost use Rattle.std.specs.Prelude.{◌≡◌, ◌<◌, ◌<ℤ◌, ◌^◌, IfErr, MatchResult, OnOk, length};
ghost use Rattle.std.specs.List.{list_all};
ghost use Rattle.jiff.specs.Words.{plain_zone};
ghost use Rattle.cron_rota_answers.specs.People.{texts};
ghost use Rattle.cron_rota_answers.specs.Swaps.{AreEnds, AreNoEnds, AreSwaps, AreWrong, IsNoSwap, IsSwap, MeanNoSwap, MeanSwap, given, person_of};
ghost use Rattle.cron_rota_answers.specs.Lines.{is_blank, is_comment, is_passed, lines_of, view};
ghost use Rattle.cron_rota_answers.specs.Inner.Lines.{AddsLine, IsLineError};

use crate::cells::cut_bytes;
use crate::columns::{Columns, columns_of};
use crate::swap_error::{LineFault, SwapsError, WrongLine};
use cron_answers::instant::instant_of;
use cron_rotas::swap::Swap;
use cron_stretches::fires::second_of;
use jiff::Timestamp;
use jiff::tz::TimeZone;
use std::alloc::Global;

fn is_comment(line: &[u8]) -> bool
    ensures { result ≡ is_comment line.now }
{
    match line.first() {
        Some(byte) => *byte == b'#',
        None => false,
    }
}

fn is_blank(byte: u8) -> bool
    ensures { result ≡ is_blank byte }
{
    byte == b' ' || (byte == b'\t' || byte == b'\r')
}

fn are_blank(line: &[u8]) -> bool
    ensures { result ≡ list_all is_blank line.now }
{
    line.iter().all(|byte| is_blank(*byte))
}

// Whether a line begins with `#`, or is blank.
fn is_passed(line: &[u8]) -> bool
    ensures { result ≡ is_passed line.now }
{
    is_comment(line) || are_blank(line)
}

// The seconds of FROM and UNTIL. `Err` has the first that is no instant, or says that UNTIL isn't
// later.
fn ends_of<'a>(
    columns: &Columns<'a>,
    zone: &TimeZone<'_>,
    now: Timestamp,
) -> Result<(i64, i64), LineFault<'a>>
    ensures { MatchResult result
        (λ ends. AreEnds (plain_zone zone.now) now.nanosecond (view columns.now) ends.0 ends.1
        × (ends.0 <ℤ ends.1))
        (AreNoEnds (plain_zone zone.now) now.nanosecond (view columns.now)) }
{
    let Some(first) = instant_of(columns.from, zone, now) else {
        return Err(LineFault::NoInstant(columns.from));
    };
    let Some(last) = instant_of(columns.until, zone, now) else {
        return Err(LineFault::NoInstant(columns.until));
    };
    let (from, until) = (second_of(first), second_of(last));
    if until <= from {
        return Err(LineFault::Order(columns.from, columns.until));
    }
    Ok((from, until))
}

// The place of a name among others.
fn place_among(names: &[&str], name: &str) -> Option<usize>
    ensures { result ≡ person_of (texts names.now) name.now }
{
    names.iter().position(|other| name == *other)
}

// The number of the person with a name. `None` if no person has it.
fn person_of(names: &[&str], name: &str) -> Option<u32>
    requires { length names.now < 2 ^ 32 }
    ensures { result ≡ person_of (texts names.now) name.now }
{
    match place_among(names, name) {
        Some(place) => Some(place as u32),
        None => None,
    }
}

// The swap that three cells mean.
fn swap_in<'a>(
    columns: &Columns<'a>,
    names: &[&str],
    zone: &TimeZone<'_>,
    now: Timestamp,
) -> Result<Swap, LineFault<'a>>
    requires { length names.now < 2 ^ 32 }
    ensures { MatchResult result
        (MeanSwap (given (texts names.now) (plain_zone zone.now) now.nanosecond) (view columns.now))
        (MeanNoSwap (given (texts names.now) (plain_zone zone.now) now.nanosecond)
        (view columns.now)) }
{
    let (from, until) = match ends_of(columns, zone, now) {
        Ok(ends) => ends,
        Err(fault) => return Err(fault),
    };
    match person_of(names, columns.name) {
        Some(person) => Ok(Swap {
            from,
            until,
            person,
        }),
        None => Err(LineFault::NoPerson(columns.name)),
    }
}

// The swap that a line means.
fn swap_of<'a>(
    line: &'a [u8],
    names: &[&str],
    zone: &TimeZone<'_>,
    now: Timestamp,
) -> Result<Swap, LineFault<'a>>
    requires { length names.now < 2 ^ 32 }
    ensures { MatchResult result
        (IsSwap (given (texts names.now) (plain_zone zone.now) now.nanosecond) line.entry.now)
        (IsNoSwap (given (texts names.now) (plain_zone zone.now) now.nanosecond) line.entry.now) }
{
    let Ok(text) = str::from_utf8(line) else {
        return Err(LineFault::NoText);
    };
    match columns_of(text) {
        Some(columns) => swap_in(&columns, names, zone, now),
        None => Err(LineFault::NotThree),
    }
}

// Appends the swap of a line, unless the line is passed over.
fn push_line<'a>(
    swaps: &mut Vec<Swap>,
    number: usize,
    line: &'a [u8],
    names: &[&str],
    zone: &TimeZone<'_>,
    now: Timestamp,
) -> Result<(), SwapsError<'a>>
    requires { length names.now < 2 ^ 32 }
    ensures ok { OnOk result
        (AddsLine (given (texts names.now) (plain_zone zone.now) now.nanosecond) line.entry.now
        swaps.old.items swaps.new.items) }
    ensures err { IfErr result
        (IsLineError (given (texts names.now) (plain_zone zone.now) now.nanosecond) number
        line.entry.now) }
{
    if is_passed(line) {
        return Ok(());
    }
    match swap_of(line, names, zone, now) {
        Ok(swap) => match swaps.push(swap) {
            Ok(()) => Ok(()),
            Err(_) => Err(SwapsError::OutOfMemory),
        },
        Err(fault) => Err(SwapsError::Line(WrongLine { number, fault })),
    }
}

/// The swaps of a file, in the order of its lines. Lines that begin with `#` and blank ones are
/// passed over. `Err` has the first wrong line, or says that memory ran out.
pub(crate) fn swaps_of<'a>(
    alloc: Global,
    file: &'a [u8],
    names: &[&str],
    zone: &TimeZone<'_>,
    now: Timestamp,
) -> Result<Vec<Swap>, SwapsError<'a>>
    requires { length names.now < 2 ^ 32 }
    ensures { MatchResult result
        (λ swaps. AreSwaps (given (texts names.now) (plain_zone zone.now) now.nanosecond)
        (lines_of file.entry.now) swaps.items)
        (AreWrong (given (texts names.now) (plain_zone zone.now) now.nanosecond)
        (lines_of file.entry.now)) }
{
    // A file in memory has at most `usize::MAX` bytes, so each line has a number.
    let _len = file.len();
    let mut swaps = Vec::new(alloc);
    let mut number = 1;
    let mut rest = Some(file);
    'lines: while let Some(left) = rest {
        let (line, more) = cut_bytes(left, b'\n');
        match push_line(&mut swaps, number, line, names, zone, now) {
            Ok(()) => number += 1,
            Err(error) => return Err(error),
        }
        rest = more;
    }
    Ok(swaps)
}
