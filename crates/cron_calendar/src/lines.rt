//! The lines of a month, each 38 columns wide. A month has a line of its name, one of the names of
//! the weekdays, and for each of six weeks one of days and one of numbers of fires. Months are
//! numbered from January of the year 0.
ghost use Rattle.std.specs.Prelude.{◌≡◌, ◌++◌, ◌+◌, ◌*◌, ◌%◌, ◌<◌, ◌≤◌, ◌∷◌, [], OnOk};
ghost use Rattle.std.specs.List.{flat_map, range_with_len};
ghost use Rattle.cron_moments.specs.Calendar.{first_month, months_end};
ghost use Rattle.cron_calendar.specs.Grids.{counts_line, days_line, heads, month_line, month_name, own_line, title, week_line};

use crate::cells::{four_columns, push_count, push_day};
use crate::months::{Months, count_at, day_at};
use std::alloc::AllocError;

// The name of a month of the year, 0 for January: right-aligned in 17 columns, with a space after
// it.
fn month_name(month: u32) -> &'static [u8; 18]
    ensures { result.now ≡ month_name month }
{
    match month {
        0 => b"          January ",
        1 => b"         February ",
        2 => b"            March ",
        3 => b"            April ",
        4 => b"              May ",
        5 => b"             June ",
        6 => b"             July ",
        7 => b"           August ",
        8 => b"        September ",
        9 => b"          October ",
        10 => b"         November ",
        _ => b"         December ",
    }
}

// Appends the line with the name of a month and its year.
fn push_title(page: &mut Vec<u8>, month: u32) -> Result<(), AllocError>
    ensures { OnOk result (page.new.items ≡ page.old.items ++ title month) }
{
    page.extend_from_slice(month_name(month % 12))?;
    page.extend_from_slice(&four_columns(month / 12))?;
    page.extend_from_slice(b"             ")
}

// Appends the line with the days of a week of `month`; weeks are counted from 0.
fn push_days(page: &mut Vec<u8>, month: u32, week: u32) -> Result<(), AllocError>
    requires month { (first_month ≤ month) × (month < months_end) }
    requires week { week < 7 }
    ensures { OnOk result (page.new.items ≡ page.old.items ++ days_line month week) }
{
    for column in 0..7 {
        push_day(page, day_at(month, week * 7 + column))?;
    }
    Ok(())
}

// Appends the line with the numbers of fires of the days of a week of `month`; weeks are counted
// from 0.
fn push_counts(
    page: &mut Vec<u8>,
    months: &Months<'_>,
    month: u32,
    week: u32,
) -> Result<(), AllocError>
    requires month { (first_month ≤ month) × (month < months_end) }
    requires week { week < 7 }
    ensures { OnOk result (page.new.items ≡ page.old.items ++ counts_line months.now month week) }
{
    for column in 0..7 {
        let count = count_at(months, month, week * 7 + column);
        push_count(page, months.colour, count)?;
    }
    Ok(())
}

// Appends a line of a week: its days if `line` is even, else their numbers of fires. Two lines are
// a week.
fn push_week_line(
    page: &mut Vec<u8>,
    months: &Months<'_>,
    month: u32,
    line: u32,
) -> Result<(), AllocError>
    requires month { (first_month ≤ month) × (month < months_end) }
    requires line { line < 14 }
    ensures { OnOk result (page.new.items ≡ page.old.items ++ week_line months.now month line) }
{
    if line % 2 == 0 {
        push_days(page, month, line / 2)
    } else {
        push_counts(page, months, month, line / 2)
    }
}

// Appends the line with the names of the days of the week.
fn push_heads(page: &mut Vec<u8>) -> Result<(), AllocError>
    ensures { OnOk result (page.new.items ≡ page.old.items ++ heads) }
{
    page.extend_from_slice(b"   Mo   Tu   We   Th   Fr   Sa   Su")
}

// Appends line `line` of a month: 0 is its name, 1 the names of the weekdays, and then come two
// lines for each of six weeks.
fn push_own_line(
    page: &mut Vec<u8>,
    months: &Months<'_>,
    month: u32,
    line: u32,
) -> Result<(), AllocError>
    requires month { (first_month ≤ month) × (month < months_end) }
    requires line { line < 14 }
    ensures { OnOk result (page.new.items ≡ page.old.items ++ own_line months.now month line) }
{
    match line {
        0 => push_title(page, month),
        1 => push_heads(page),
        _ => push_week_line(page, months, month, line - 2),
    }
}

/// Appends line `line` of a month, and the three spaces between two months side by side.
pub(crate) fn push_month_line(
    page: &mut Vec<u8>,
    months: &Months<'_>,
    month: u32,
    line: u32,
) -> Result<(), AllocError>
    requires month { (first_month ≤ month) × (month < months_end) }
    requires line { line < 14 }
    ensures { OnOk result (page.new.items ≡ page.old.items ++ month_line months.now month line) }
{
    push_own_line(page, months, month, line)?;
    page.extend_from_slice(b"   ")
}
