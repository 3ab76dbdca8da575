//! The parts of drawings: numbers, and words of the program. A drawing can't hold a text of an
//! entry.
ghost use Rattle.std.specs.Prelude.{◌≡◌, ◌++◌, codes, OnOk};
ghost use Rattle.std.specs.Fmt.{decimal};
ghost use Rattle.std.specs.List.{flat_map};
ghost use Rattle.cron_calendar.specs.Shapes.{attribute, cell_text, hour_text, place, run_text, shape_text, square_text, word_bytes, word_text};

use super::pieces::{push_number, push_text};
use std::alloc::AllocError;

/// A word of a drawing.
#[derive(Clone, Copy)]
pub(crate) enum Word {
    /// The short name of a month, from 0 for January on.
    Month(u32),
    /// The short name of a day of the week, from 0 for Monday on.
    Weekday(u32),
}

/// A part of a drawing.
#[derive(Clone, Copy)]
pub(super) enum Shape {
    /// The square of a day, with its level of colour from 0 to 4 and its coordinates.
    Square { level: u32, x: u32, y: u32 },
    /// A word, with its coordinates.
    Label { word: Word, x: u32, y: u32 },
    /// A run of days in an entry's strip of the year: its first day, counted from 0, and how many
    /// days it has.
    Run { first: u32, width: u32 },
    /// The head of a weekday's row in the table by weekday and hour.
    Head { word: Word },
    /// A cell of a weekday's row: its level of colour from 0 to 4, and its number of fires.
    Cell { level: u32, sum: u32 },
    /// The end of a weekday's row.
    RowEnd,
    /// The head of the column of an hour, 0 to 23.
    Hour { hour: u32 },
    /// The end of the heads of the columns.
    HeadEnd,
}

/// The word, of three letters.
pub(crate) fn word_bytes(word: Word) -> &'static str
    ensures { result.now ≡ word_bytes word }
{
    match word {
        Word::Month(0) => "Jan",
        Word::Month(1) => "Feb",
        Word::Month(2) => "Mar",
        Word::Month(3) => "Apr",
        Word::Month(4) => "May",
        Word::Month(5) => "Jun",
        Word::Month(6) => "Jul",
        Word::Month(7) => "Aug",
        Word::Month(8) => "Sep",
        Word::Month(9) => "Oct",
        Word::Month(10) => "Nov",
        Word::Month(_) => "Dec",
        Word::Weekday(0) => "Mon",
        Word::Weekday(1) => "Tue",
        Word::Weekday(2) => "Wed",
        Word::Weekday(3) => "Thu",
        Word::Weekday(4) => "Fri",
        Word::Weekday(5) => "Sat",
        Word::Weekday(_) => "Sun",
    }
}

// Appends an attribute: the text `name`, then `number` and a closing quote.
fn push_attribute(page: &mut Vec<u8>, name: &str, number: u32) -> Result<(), AllocError>
    ensures { OnOk result (page.new.items ≡ page.old.items ++ attribute name.now number) }
{
    push_text(page, name)?;
    push_number(page, number)?;
    push_text(page, "\"")?;
    Ok(())
}

// Appends the attributes of the coordinates of a part of a drawing.
fn push_place(page: &mut Vec<u8>, x: u32, y: u32) -> Result<(), AllocError>
    ensures { OnOk result (page.new.items ≡ page.old.items ++ place x y) }
{
    push_attribute(page, " x=\"", x)?;
    push_attribute(page, " y=\"", y)?;
    Ok(())
}

fn push_square(page: &mut Vec<u8>, level: u32, x: u32, y: u32) -> Result<(), AllocError>
    ensures { OnOk result (page.new.items ≡ page.old.items ++ square_text level x y) }
{
    push_attribute(page, "<rect class=\"l", level)?;
    push_place(page, x, y)?;
    push_text(page, " width=\"12\" height=\"12\" rx=\"2\"/>\n")?;
    Ok(())
}

// Appends the text `before`, a word, and the text `after`.
fn push_between(page: &mut Vec<u8>, before: &str, word: Word, after: &str) -> Result<(), AllocError>
    ensures { OnOk result (page.new.items
        ≡ page.old.items ++ (before.now ++ (word_bytes word ++ after.now))) }
{
    push_text(page, before)?;
    push_text(page, word_bytes(word))?;
    push_text(page, after)?;
    Ok(())
}

fn push_label(page: &mut Vec<u8>, word: Word, x: u32, y: u32) -> Result<(), AllocError>
    ensures { OnOk result (page.new.items ≡ page.old.items ++ word_text word x y) }
{
    push_text(page, "<text")?;
    push_place(page, x, y)?;
    push_between(page, ">", word, "</text>\n")?;
    Ok(())
}

fn push_run(page: &mut Vec<u8>, first: u32, width: u32) -> Result<(), AllocError>
    ensures { OnOk result (page.new.items ≡ page.old.items ++ run_text first width) }
{
    push_text(page, "<rect")?;
    push_place(page, first, 0)?;
    push_attribute(page, " width=\"", width)?;
    push_text(page, " height=\"10\"/>")?;
    Ok(())
}

fn push_cell(page: &mut Vec<u8>, level: u32, sum: u32) -> Result<(), AllocError>
    ensures { OnOk result (page.new.items ≡ page.old.items ++ cell_text level sum) }
{
    push_attribute(page, "<td class=\"b", level)?;
    push_text(page, ">")?;
    push_number(page, sum)?;
    push_text(page, "</td>")?;
    Ok(())
}

fn push_hour(page: &mut Vec<u8>, hour: u32) -> Result<(), AllocError>
    ensures { OnOk result (page.new.items ≡ page.old.items ++ hour_text hour) }
{
    push_text(page, "<th scope=\"col\">")?;
    push_number(page, hour)?;
    push_text(page, "</th>")?;
    Ok(())
}

// Appends a part of a drawing.
fn push_shape(page: &mut Vec<u8>, shape: Shape) -> Result<(), AllocError>
    ensures { OnOk result (page.new.items ≡ page.old.items ++ shape_text shape) }
{
    match shape {
        Shape::Square { level, x, y } => push_square(page, level, x, y),
        Shape::Label { word, x, y } => push_label(page, word, x, y),
        Shape::Run { first, width } => push_run(page, first, width),
        Shape::Head { word } => { push_between(page, "<tr><th scope=\"row\">", word, "</th>") }
        Shape::Cell { level, sum } => push_cell(page, level, sum),
        Shape::RowEnd => push_text(page, "</tr>\n"),
        Shape::Hour { hour } => push_hour(page, hour),
        Shape::HeadEnd => push_text(page, "</tr></thead>\n<tbody>\n"),
    }
}

/// Appends a drawing: its parts one after another.
pub(super) fn push_drawing(page: &mut Vec<u8>, shapes: &[Shape]) -> Result<(), AllocError>
    ensures { OnOk result (page.new.items ≡ page.old.items ++ flat_map shape_text shapes.now) }
{
    for shape in shapes {
        push_shape(page, *shape)?;
    }
    Ok(())
}
