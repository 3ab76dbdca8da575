//! Words in single quotes, which a shell doesn't interpret.

ghost use Rattle.std.specs.Prelude.{◌≡◌, ◌++◌, ◌∷◌, OnOk};
ghost use Rattle.std.specs.List.{flat_map};
ghost use Rattle.cron_shell.specs.Words.{PushesWord};
ghost use Rattle.cron_shell.specs.Quoted.{escaped, quoted};

use std::alloc::AllocError;

// Appends `byte` as part of a quoted word. A quote is written as `'\''`: the open quote is closed,
// an escaped quote follows, and a new quote is opened.
fn push_byte(line: &mut Vec<u8>, byte: u8) -> Result<(), AllocError>
    ensures { OnOk result (line.new.items ≡ line.old.items ++ escaped byte) }
{
    if byte == b'\'' {
        return line.extend_from_slice(b"'\\''");
    }
    line.push(byte)?;
    Ok(())
}

/// Appends `text` as part of a quoted word.
pub(crate) fn push_bytes(line: &mut Vec<u8>, text: &[u8]) -> Result<(), AllocError>
    ensures { OnOk result (line.new.items ≡ line.old.items ++ flat_map escaped text.now) }
{
    for byte in text {
        push_byte(line, *byte)?;
    }
    Ok(())
}

/// Appends `text` as a word of a shell, with a blank before it. `text` may have any byte, but a
/// shell reads no NUL.
pub fn push_word(line: &mut Vec<u8>, text: &[u8]) -> Result<(), AllocError>
    ensures word { OnOk result (PushesWord text.now line.old.items line.new.items) }
    ensures quoted { OnOk result (line.new.items ≡ line.old.items ++ 32 ∷ quoted text.now) }
{
    line.extend_from_slice(b" '")?;
    push_bytes(line, text)?;
    line.push(b'\'')?;
    Ok(())
}
