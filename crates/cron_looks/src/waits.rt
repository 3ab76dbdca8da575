//! How long it is from one instant to another, in the two greatest units: `in 13h 5m`.
ghost use Rattle.std.specs.Prelude.{◌≡◌, ◌++◌, OnOk};
ghost use Rattle.cron_looks.specs.Waits.{part, rest_part, span, wait_text};

use itoa::Buffer;
use std::alloc::AllocError;

const MINUTE: u64 = 60;

const HOUR: u64 = 3_600;

const DAY: u64 = 86_400;

// Appends a number and its unit.
fn push_part(row: &mut Vec<u8>, number: u64, unit: u8) -> Result<(), AllocError>
    ensures { OnOk result (row.new.items ≡ row.old.items ++ part number unit) }
{
    let mut buffer = Buffer::new();
    row.extend_from_slice(buffer.format(number).as_bytes())?;
    row.push(unit)?;
    Ok(())
}

// Appends a space, a number and its unit, or nothing if the number is 0.
fn push_rest(row: &mut Vec<u8>, number: u64, unit: u8) -> Result<(), AllocError>
    ensures { OnOk result (row.new.items ≡ row.old.items ++ rest_part number unit) }
{
    if number == 0 {
        return Ok(());
    }
    row.push(b' ')?;
    push_part(row, number, unit)
}

// Appends a number of seconds in its two greatest units, of which the second is left out if it is
// 0.
fn push_span(row: &mut Vec<u8>, seconds: u64) -> Result<(), AllocError>
    ensures { OnOk result (row.new.items ≡ row.old.items ++ span seconds) }
{
    if seconds < MINUTE {
        return push_part(row, seconds, b's');
    }
    if seconds < HOUR {
        push_part(row, seconds / MINUTE, b'm')?;
        return push_rest(row, seconds % MINUTE, b's');
    }
    if seconds < DAY {
        push_part(row, seconds / HOUR, b'h')?;
        return push_rest(row, seconds / MINUTE % 60, b'm');
    }
    push_part(row, seconds / DAY, b'd')?;
    push_rest(row, seconds / HOUR % 24, b'h')
}

/// Appends how far an instant lies ahead, in seconds: `in 13h 5m`, `now`, or `13h 5m ago` if the
/// number is negative.
pub(crate) fn push_wait(row: &mut Vec<u8>, seconds: i64) -> Result<(), AllocError>
    ensures { OnOk result (row.new.items ≡ row.old.items ++ wait_text seconds) }
{
    let span = seconds.unsigned_abs();
    if seconds < 0 {
        push_span(row, span)?;
        return row.extend_from_slice(b" ago");
    }
    if span == 0 {
        return row.extend_from_slice(b"now");
    }
    row.extend_from_slice(b"in ")?;
    push_span(row, span)
}
