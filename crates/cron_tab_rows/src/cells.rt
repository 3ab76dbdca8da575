//! The cells of a row of text: where an entry stands, and what it runs.
ghost use Rattle.std.specs.Prelude.{◌≡◌, ◌++◌, ◌∷◌, [], OnOk};
ghost use Rattle.cron_tab_lines.specs.Views.{bytes_view};
ghost use Rattle.cron_tab_rows.specs.Cells.{file_cell, input_cell, place_cell, task_cell, user_cell};
ghost use Rattle.cron_tab_rows.specs.Sources.{view};

use crate::source::Source;
use itoa::Buffer;
use std::alloc::AllocError;

/// Appends bytes and then the byte `end`.
pub fn push_cell(row: &mut Vec<u8>, bytes: &[u8], end: u8) -> Result<(), AllocError>
    ensures { OnOk result (row.new.items ≡ row.old.items ++ (bytes.now ++ end ∷ [])) }
{
    row.extend_from_slice(bytes)?;
    row.push(end)?;
    Ok(())
}

// Appends the file's name and a colon, if there is a file.
fn push_file(row: &mut Vec<u8>, file: Option<&str>) -> Result<(), AllocError>
    ensures { OnOk result (row.new.items ≡ row.old.items ++ file_cell (bytes_view file.entry)) }
{
    match file {
        Some(file) => push_cell(row, file.as_bytes(), b':'),
        None => Ok(()),
    }
}

/// Appends where an entry stands: its file and a colon, if there is a file, the number of its line,
/// and a tab.
pub fn push_place(row: &mut Vec<u8>, file: Option<&str>, line: usize) -> Result<(), AllocError>
    ensures { OnOk result (row.new.items
        ≡ row.old.items ++ place_cell (bytes_view file.entry) line) }
{
    push_file(row, file)?;
    push_cell(row, Buffer::new().format(line).as_bytes(), b'\t')
}

// Appends the user and a tab, if there is a user.
fn push_user(row: &mut Vec<u8>, user: Option<&[u8]>) -> Result<(), AllocError>
    ensures { OnOk result (row.new.items ≡ row.old.items ++ user_cell (bytes_view user.entry)) }
{
    match user {
        Some(user) => push_cell(row, user, b'\t'),
        None => Ok(()),
    }
}

// Appends a percent sign and the input, if there is input.
fn push_input(row: &mut Vec<u8>, input: Option<&[u8]>) -> Result<(), AllocError>
    ensures { OnOk result (row.new.items ≡ row.old.items ++ input_cell (bytes_view input.entry)) }
{
    if let Some(input) = input {
        row.push(b'%')?;
        row.extend_from_slice(input)?;
    }
    Ok(())
}

/// Appends what an entry runs: the user and a tab, if there is a user, and the command with its
/// input as they are in the line. A line feed ends it.
pub fn push_task(row: &mut Vec<u8>, source: &Source<'_>) -> Result<(), AllocError>
    ensures { OnOk result (row.new.items ≡ row.old.items ++ task_cell (view source.now)) }
{
    push_user(row, source.user)?;
    row.extend_from_slice(source.command)?;
    push_input(row, source.input)?;
    row.push(b'\n')?;
    Ok(())
}
