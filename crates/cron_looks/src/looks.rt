//! The time of a fire as a terminal shows it: `Sun 2024-03-10 03:00:00 -05:00  in 13h 5m`.
ghost use Rattle.std.specs.Prelude.{◌≡◌, ◌++◌, ◌∷◌, IfOk, OnOk};
ghost use Rattle.cron_looks.specs.Looks.{lit, look_text, seconds_until, spaces, wait_cell, weekday_name, widened};

use crate::waits::push_wait;
use cron_moments::civil::SECONDS_PER_DAY;
use cron_moments::moment::{Moment, civil_second, instant_of};
use jiff::Timestamp;
use std::alloc::{AllocError, Global};

/// How a terminal shows times.
#[derive(Clone, Copy)]
pub struct Look {
    /// The instant from which waits are counted.
    pub from: Timestamp,
    /// Whether fires are bold and waits are dim.
    pub colour: bool,
    /// Whether the wait takes eleven columns at least, since another cell follows it.
    pub wide: bool,
}

/// What makes a terminal write bold, and dim.
const BOLD: u8 = b'1';

const DIM: u8 = b'2';

/// The spaces of an empty wait.
const SPACES: &[u8; 11] = b"           ";

// The name of the weekday of a day, which is numbered from 1970-01-01, a Thursday.
fn weekday_name(day: u32) -> &'static [u8; 3]
    ensures { result.now ≡ weekday_name day }
{
    match day % 7 {
        0 => b"Thu",
        1 => b"Fri",
        2 => b"Sat",
        3 => b"Sun",
        4 => b"Mon",
        5 => b"Tue",
        _ => b"Wed",
    }
}

// Appends a text. If `colour` is true, it stands between the codes that switch a style on and off.
fn push_lit(row: &mut Vec<u8>, colour: bool, style: u8, text: &[u8]) -> Result<(), AllocError>
    ensures { OnOk result (row.new.items ≡ row.old.items ++ lit colour style text.now) }
{
    if !colour {
        return row.extend_from_slice(text);
    }
    row.extend_from_slice(b"\x1b[")?;
    row.push(style)?;
    row.push(b'm')?;
    row.extend_from_slice(text)?;
    row.extend_from_slice(b"\x1b[0m")
}

// The spaces that a text lacks to eleven columns.
fn spaces(text: &[u8]) -> &'static [u8]
    ensures { result.now ≡ spaces text.now }
{
    &SPACES[text.len().min(11)..]
}

// Appends the spaces that a text lacks to eleven columns, if `wide` is true.
fn widen(cell: &mut Vec<u8>, wide: bool) -> Result<(), AllocError>
    ensures { OnOk result (cell.new.items ≡ widened wide cell.old.items) }
{
    if wide {
        cell.extend_from_slice(spaces(cell.as_slice()))?;
    }
    Ok(())
}

// How many seconds there are until a moment.
fn seconds_until(look: &Look, moment: &Moment) -> i64
    ensures { result ≡ seconds_until look.now moment.now }
{
    instant_of(moment) - look.from.as_second()
}

// The wait for a moment.
fn wait_cell(alloc: Global, look: &Look, moment: &Moment) -> Result<Vec<u8>, AllocError>
    ensures { IfOk result (λ cell. cell.items ≡ wait_cell look.now moment.now) }
{
    let mut cell = Vec::new(alloc);
    push_wait(&mut cell, seconds_until(look, moment))?;
    widen(&mut cell, look.wide)?;
    Ok(cell)
}

/// Appends the time of a fire as a terminal shows it: the weekday, the fire's text, and how long it
/// is until `moment`, which the clock shows then.
pub(crate) fn push_look(
    alloc: Global,
    row: &mut Vec<u8>,
    look: &Look,
    text: &[u8],
    moment: &Moment,
) -> Result<(), AllocError>
    ensures { OnOk result (row.new.items
        ≡ row.old.items ++ look_text look.now text.now moment.now) }
{
    row.extend_from_slice(weekday_name(civil_second(moment) / SECONDS_PER_DAY))?;
    row.push(b' ')?;
    push_lit(row, look.colour, BOLD, text)?;
    row.extend_from_slice(b"  ")?;
    let wait = wait_cell(alloc, look, moment)?;
    push_lit(row, look.colour, DIM, wait.as_slice())
}
