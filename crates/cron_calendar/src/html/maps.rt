//! The parts of the drawings of a year: its heat maps by day and by weekday and hour, and the
//! strips of its entries. Days of the year and hours are counted from 0.
ghost use Rattle.std.specs.Prelude.{◌≡◌, ◌+◌, ◌*◌, ◌++◌, ◌<◌, ◌≤◌, List, IfOk, OnOk, fold};
ghost use Rattle.cron_calendar.specs.Grids.{lead};
ghost use Rattle.cron_calendar.specs.Shapes.{most_of, square_at, squares_of};
ghost use Rattle.cron_calendar.specs.declared.html.shapes.Shape.{Shape as Part};

use super::Year;
use super::pieces::{days_before, level_of};
use super::shapes::{Shape, Word};
use cron_moments::calendar::KnownMonth;
use std::alloc::{AllocError, Global};

// Where the squares of the days begin, from the left and from the top of the drawing, and how far
// one is from the next.
const LEFT: u32 = 34;

const TOP: u32 = 20;

const STEP: u32 = 14;

/// The greatest of `counts`, or 0 if there is none.
pub(super) fn most_of(counts: &[u32]) -> u32
    ensures { result ≡ most_of counts.now }
{
    let mut most = 0;
    for count in counts {
        most = most.max(*count);
    }
    most
}

// The square of a day, coloured by its number; `most` is the greatest of the year. `place` is its
// index from the Monday of the year's first week on: a column is a week.
fn square_of(place: u32, count: u32, most: u32) -> Shape
    requires { place < 400 }
    ensures { result ≡ square_at place count most }
{
    Shape::Square {
        level: level_of(count, most),
        x: LEFT + place / 7 * STEP,
        y: TOP + place % 7 * STEP,
    }
}

// Adds a square for each day of the year. `lead` is the number of days of the first week that
// precede the year, and `shades` are the numbers that colour the days.
fn add_squares(shapes: &mut Vec<Shape>, lead: u32, shades: &[u32]) -> Result<(), AllocError>
    requires { lead < 7 }
    ensures { OnOk result (shapes.new.items ≡ shapes.old.items ++ squares_of lead shades.now) }
{
    let most = most_of(shades);
    for place in 0..shades.len().min(366) {
        shapes.push(square_of(lead + place as u32, shades[place], most))?;
    }
    Ok(())
}

// Adds the names of the months above the squares, each above the week with its first day. `lead` is
// the number of days of the first week that precede the year.
fn add_months(shapes: &mut Vec<Shape>, year: u32, lead: u32) -> Result<(), AllocError>
    requires year { (1970 ≤ year) × (year ≤ 2100) }
    requires lead { lead < 7 }
{
    for month in 0..12 {
        let days = days_before(year * 12 + month).min(366);
        shapes.push(Shape::Label {
            word: Word::Month(month),
            x: LEFT + (lead + days) / 7 * STEP,
            y: 14,
        })?;
    }
    Ok(())
}

// Adds the days of the week beside the squares.
fn add_weekdays(shapes: &mut Vec<Shape>) -> Result<(), AllocError> {
    for day in 0..7 {
        shapes.push(Shape::Label {
            word: Word::Weekday(day),
            x: 0,
            y: TOP + day * STEP + 10,
        })?;
    }
    Ok(())
}

// The number of days of the year's first week that precede the year. Weeks begin with Monday.
fn lead_of(year: u32) -> u32
    requires { (1970 ≤ year) × (year ≤ 2100) }
    ensures lead { result ≡ lead (year * 12) }
    ensures few { result < 7 }
{
    (KnownMonth::of_number(year * 12).first_day() + 3) % 7
}

/// The parts of the heat map by day: names of months and weekdays, and then the squares of the
/// days.
pub(super) fn days_map(alloc: Global, year: &Year<'_>) -> Result<Vec<Shape>, AllocError>
    requires { (1970 ≤ year.now.year) × (year.now.year ≤ 2100) }
    ensures { IfOk result (λ shapes. (labels : List Part) × (shapes.items
        ≡ labels ++ squares_of (lead (year.now.year * 12)) year.now.shades.now)) }
{
    let lead = lead_of(year.year);
    let mut shapes = Vec::new(alloc);
    add_months(&mut shapes, year.year, lead)?;
    add_weekdays(&mut shapes)?;
    add_squares(&mut shapes, lead, year.shades)?;
    Ok(shapes)
}

// The end of the run of days with fires from `first` on: the index of the first day without fires,
// or the number of days.
fn run_end(counts: &[u32], first: usize) -> usize
    requires { first ≤ 366 }
    ensures { (first ≤ result) × (result ≤ 366) }
{
    let mut end = first;
    while end < counts.len().min(366) && counts[end] > 0 {
        end += 1;
    }
    end
}

/// The strip of an entry's days in a year, with one part for each run of days with fires. `counts`
/// are the numbers of fires.
pub(super) fn strip_of(alloc: Global, counts: &[u32]) -> Result<Vec<Shape>, AllocError> {
    let mut shapes = Vec::new(alloc);
    let mut at = 0;
    while at < counts.len().min(366) {
        let end = run_end(counts, at);
        if end > at {
            shapes.push(Shape::Run {
                first: at as u32,
                width: (end - at) as u32,
            })?;
        }
        at = end + 1;
    }
    Ok(shapes)
}

// The number of fires in hour `hour` of all days of a weekday, at most `u32::MAX`. `first` is the
// first day of the year with that weekday, counted from 0. `hours` has 24 numbers a day.
fn sum_of(hours: &[u32], first: usize, hour: usize) -> u32
    requires { (first < 7) × (hour < 24) }
{
    let mut sum = 0u32;
    for week in 0..53 {
        let place = (first + week * 7) * 24 + hour;
        if let Some(count) = hours.get(place) {
            sum = sum.saturating_add(*count);
        }
    }
    sum
}

// The greatest number of fires that a weekday has in one hour of the day, over the whole year.
fn most_sum(hours: &[u32]) -> u32 {
    let mut most = 0;
    for place in 0..168 {
        most = most.max(sum_of(hours, place / 24, place % 24));
    }
    most
}

// Adds the hours of the day as the heads of the table's columns.
fn add_hours(shapes: &mut Vec<Shape>) -> Result<(), AllocError> {
    for hour in 0..24 {
        shapes.push(Shape::Hour { hour })?;
    }
    shapes.push(Shape::HeadEnd)?;
    Ok(())
}

// Adds the row of weekday `day`, 0 for Monday, with a cell for each hour. `first` is the first day
// of the year with that weekday, and `most` the greatest number of all cells.
fn add_weekday(
    shapes: &mut Vec<Shape>,
    hours: &[u32],
    day: u32,
    first: usize,
    most: u32,
) -> Result<(), AllocError>
    requires { first < 7 }
{
    shapes.push(Shape::Head {
        word: Word::Weekday(day),
    })?;
    for hour in 0..24 {
        let sum = sum_of(hours, first, hour);
        shapes.push(Shape::Cell {
            level: level_of(sum, most),
            sum,
        })?;
    }
    shapes.push(Shape::RowEnd)?;
    Ok(())
}

/// The parts of the heat map by weekday and hour.
pub(super) fn hours_map(alloc: Global, year: &Year<'_>) -> Result<Vec<Shape>, AllocError>
    requires { (1970 ≤ year.now.year) × (year.now.year ≤ 2100) }
{
    let lead = lead_of(year.year) as usize;
    let most = most_sum(year.hours);
    let mut shapes = Vec::new(alloc);
    add_hours(&mut shapes)?;
    for day in 0..7 {
        add_weekday(
            &mut shapes,
            year.hours,
            day as u32,
            (day + 7 - lead) % 7,
            most,
        )?;
    }
    Ok(shapes)
}
