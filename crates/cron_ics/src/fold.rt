//! Folded lines: RFC 5545 wants lines of at most 75 octets. So a longer line is written in pieces,
//! with a line end and a space between two.
ghost use Rattle.std.specs.Prelude.{◌≡◌, ◌+◌, ◌<◌, ◌^◌, ◌++◌, IfOk, OnOk};
ghost use Rattle.cron_ics.specs.Folding.{breaks, folded, folded_byte, next_column};

use std::alloc::AllocError;

/// A piece with this many octets or more ends before the next character. With fewer it has room for
/// one more character, of up to four octets. The space before a piece isn't counted.
const FULL: usize = 71;

// Whether a piece of `column` bytes ends before `byte`. No piece ends within a character.
fn breaks(column: usize, byte: u8) -> bool
    ensures { result ≡ breaks column byte }
{
    FULL <= column && !(128 <= byte && byte < 192)
}

// Appends `byte` after a piece of `column` bytes, perhaps as the first of a new piece. It returns
// how many bytes the last piece then has.
fn push_byte(page: &mut Vec<u8>, column: usize, byte: u8) -> Result<usize, AllocError>
    requires { column + 1 < 2 ^ 64 }
    ensures pushed { OnOk result (page.new.items ≡ page.old.items ++ folded_byte column byte) }
    ensures column { IfOk result (λ next. next ≡ next_column column byte) }
{
    if breaks(column, byte) {
        page.extend_from_slice(&[b'\r', b'\n', b' ', byte])?;
        return Ok(1);
    }
    page.push(byte)?;
    Ok(column + 1)
}

/// Appends a line in pieces of at most 75 octets, with a line end after it.
pub(crate) fn push_line(page: &mut Vec<u8>, line: &[u8]) -> Result<(), AllocError>
    ensures { OnOk result (page.new.items ≡ page.old.items ++ folded line.now) }
{
    let mut column = 0;
    for byte in line {
        column = push_byte(page, column, *byte)?;
    }
    page.extend_from_slice(b"\r\n")
}
