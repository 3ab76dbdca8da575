//! Months side by side, with the number of fires below each day. Months are numbered from January
//! of the year 0.
ghost use Rattle.std.specs.Prelude.{◌≡◌, ◌+◌, ◌<◌, ◌≤◌, ◌++◌, IfOk, OnOk};
ghost use Rattle.cron_moments.specs.Calendar.{first_month, months_end};
ghost use Rattle.cron_calendar.specs.Grids.{grid_text, line_text, row_from, row_text};

use crate::lines::push_month_line;
use crate::months::Months;
use std::alloc::{AllocError, Global};

/// The lines of a month: its name, the days of the week, and two for each of six weeks.
const LINES: u32 = 14;

// Consecutive months side by side, from `first` up to but without `end`.
#[derive(Clone, Copy)]
struct Row {
    first: u32,
    end: u32,
}

// Appends line `line` of each month of a row, side by side.
fn push_line(page: &mut Vec<u8>, months: &Months<'_>, row: Row, line: u32) -> Result<(), AllocError>
    requires low { first_month ≤ row.first }
    requires high { row.end ≤ months_end }
    requires order { row.first ≤ row.end }
    requires line { line < 14 }
    ensures { OnOk result
        (page.new.items ≡ page.old.items ++ line_text months.now row.first row.end line) }
{
    for month in row.first..row.end {
        push_month_line(page, months, month, line)?;
    }
    page.push(b'\n')?;
    Ok(())
}

// Appends all lines of the months of a row, side by side, and an empty line.
fn push_row(page: &mut Vec<u8>, months: &Months<'_>, row: Row) -> Result<(), AllocError>
    requires low { first_month ≤ row.first }
    requires high { row.end ≤ months_end }
    requires order { row.first ≤ row.end }
    ensures { OnOk result
        (page.new.items ≡ page.old.items ++ row_text months.now row.first row.end) }
{
    for line in 0..LINES {
        push_line(page, months, row, line)?;
    }
    page.push(b'\n')?;
    Ok(())
}

// Appends the row that begins with `month`, or nothing if no row does. The months `all` are in rows
// of `across` months each.
fn push_row_from(
    page: &mut Vec<u8>,
    months: &Months<'_>,
    all: Row,
    across: u32,
    month: u32,
) -> Result<(), AllocError>
    requires low { first_month ≤ all.first }
    requires high { all.end ≤ months_end }
    requires month { (all.first ≤ month) × (month < all.end) }
    requires across { (0 < across) × (across ≤ 12) }
    ensures { OnOk result (page.new.items
        ≡ page.old.items ++ row_from months.now all.first all.end across month) }
{
    if (month - all.first) % across != 0 {
        return Ok(());
    }
    let end = all.end.min(month + across);
    push_row(page, months, Row { first: month, end })
}

/// The text of the months from `first` up to but without `end`, `across` of them side by side.
/// Months are numbered from January of the year 0.
pub fn grid(
    alloc: Global,
    months: &Months<'_>,
    first: u32,
    end: u32,
    across: u32,
) -> Result<Vec<u8>, AllocError>
    requires low { first_month ≤ first }
    requires high { end ≤ months_end }
    requires order { first ≤ end }
    requires across { (0 < across) × (across ≤ 12) }
    ensures { IfOk result (λ page. page.items ≡ grid_text months.now first end across) }
{
    let mut page = Vec::new(alloc);
    for month in first..end {
        push_row_from(&mut page, months, Row { first, end }, across, month)?;
    }
    Ok(page)
}
