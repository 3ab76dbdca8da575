//! The cells of a grid: five columns, with a number on the right.
ghost use Rattle.std.specs.Prelude.{◌≡◌, ◌++◌, ◌∷◌, ◌<◌, [], OnOk};
ghost use Rattle.cron_calendar.specs.Cells.{count_cell, day_cell, digit_from, fires_cell, four_columns, number_cell, number_columns, tenths, three_columns};

use std::alloc::AllocError;

// The ASCII digit of `digit`, or a space if `number` is less than `least`: so leading zeros are
// spaces.
fn digit_from(least: u32, number: u32, digit: u32) -> u8
    requires { digit < 10 }
    ensures { result ≡ digit_from least number digit }
{
    if number < least {
        b' '
    } else {
        b'0' + digit as u8
    }
}

// A number below 10,000, right-aligned in four columns.
pub(crate) fn four_columns(number: u32) -> [u8; 4]
    ensures { result ≡ four_columns number }
{
    [
        digit_from(1000, number, number / 1000 % 10),
        digit_from(100, number, number / 100 % 10),
        digit_from(10, number, number / 10 % 10),
        b'0' + (number % 10) as u8,
    ]
}

// A number below 1,000, right-aligned in three columns.
fn three_columns(number: u32) -> [u8; 3]
    ensures { result ≡ three_columns number }
{
    [
        digit_from(100, number, number / 100 % 10),
        digit_from(10, number, number / 10 % 10),
        b'0' + (number % 10) as u8,
    ]
}

/// Appends the cell of a day of the month, or an empty cell if there is none.
pub(crate) fn push_day(page: &mut Vec<u8>, day: Option<u32>) -> Result<(), AllocError>
    ensures { OnOk result (page.new.items ≡ page.old.items ++ day_cell day) }
{
    let Some(day) = day else {
        return page.extend_from_slice(b"     ");
    };
    page.push(b' ')?;
    page.extend_from_slice(&four_columns(day))
}

// A number of tenths below 100 with one decimal place: `1.0` for 10.
fn tenths(number: u32) -> [u8; 3]
    ensures { result ≡ tenths number }
{
    [
        b'0' + (number / 10 % 10) as u8,
        b'.',
        b'0' + (number % 10) as u8,
    ]
}

// Three columns of digits, and a letter for the unit after them.
fn with_unit(columns: [u8; 3], unit: u8) -> [u8; 4]
    ensures { result ≡ columns ++ unit ∷ [] }
{
    [columns[0], columns[1], columns[2], unit]
}

// A number in four columns. From 10,000 on it is rounded down, to `86k`, `1.0M`, ` 10M` or `1.0G`.
fn number_columns(number: u32) -> [u8; 4]
    ensures { result ≡ number_columns number }
{
    if number < 10_000 {
        four_columns(number)
    } else if number < 1_000_000 {
        with_unit(three_columns(number / 1000), b'k')
    } else if number < 10_000_000 {
        with_unit(tenths(number / 100_000), b'M')
    } else if number < 1_000_000_000 {
        with_unit(three_columns(number / 1_000_000), b'M')
    } else {
        with_unit(tenths(number / 100_000_000), b'G')
    }
}

// Appends the cell of a number: a space and four columns.
fn push_number(page: &mut Vec<u8>, number: u32) -> Result<(), AllocError>
    ensures { OnOk result (page.new.items ≡ page.old.items ++ number_cell number) }
{
    page.push(b' ')?;
    page.extend_from_slice(&number_columns(number))
}

// Appends the cell of a number of fires: a point for 0, and other numbers green if `colour` is
// true.
fn push_fires(page: &mut Vec<u8>, colour: bool, number: u32) -> Result<(), AllocError>
    ensures { OnOk result (page.new.items ≡ page.old.items ++ fires_cell colour number) }
{
    if number == 0 {
        return page.extend_from_slice(b"    .");
    }
    if !colour {
        return push_number(page, number);
    }
    page.extend_from_slice(b"\x1b[32m")?;
    push_number(page, number)?;
    page.extend_from_slice(b"\x1b[0m")
}

/// Appends the cell of a number of fires, which is green if `colour` is true, or an empty cell if
/// there is no day.
pub(crate) fn push_count(
    page: &mut Vec<u8>,
    colour: bool,
    count: Option<u32>,
) -> Result<(), AllocError>
    ensures { OnOk result (page.new.items ≡ page.old.items ++ count_cell colour count) }
{
    match count {
        Some(number) => push_fires(page, colour, number),
        None => page.extend_from_slice(b"     "),
    }
}
