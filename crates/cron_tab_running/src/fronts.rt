//! The front of an entry's text: a shell command before it that writes the fire into the log file
//! of the entry's output. It is made without allocating memory.

ghost use Rattle.std.specs.Prelude.{◌≡◌, ◌≤◌, ◌+◌, ◌*◌, ◌++◌, length};
ghost use Rattle.std.specs.List.{flat_map};
ghost use Rattle.arrayvec.specs.ArrayVec.{array_vec_len};
ghost use Rattle.cron_agenda.specs.Messages.{fire_text};
ghost use Rattle.cron_shell.specs.Lines.{log_front};
ghost use Rattle.cron_shell.specs.Quoted.{escaped};

use arrayvec::ArrayVec;
use cron_agenda::EntryFire;
use cron_dues::text;
use cron_moments::line;

/// The bytes of the longest front: 20 around the text of a due fire. That text has up to 53, and
/// each may take four when it is quoted.
const LONGEST: usize = 232;

/// The bytes of a front.
pub(crate) type Front = ArrayVec<u8, LONGEST>;

// Appends a byte in the form that it has within single quotes of a shell.
fn push_escaped(front: &mut Front, byte: u8)
    requires { array_vec_len front.old + 4 ≤ 232 }
    ensures items { front.new.items ≡ front.old.items ++ escaped byte }
    ensures len { array_vec_len front.new ≤ array_vec_len front.old + 4 }
{
    if byte == b'\'' {
        front.try_extend_from_slice(b"'\\''").unwrap();
    } else {
        front.push(byte);
    }
}

// Appends a text in the form that it has within single quotes of a shell.
fn push_text(front: &mut Front, text: &[u8])
    requires { array_vec_len front.old + 4 * length text.now ≤ 232 }
    ensures items { front.new.items ≡ front.old.items ++ flat_map escaped text.now }
    ensures len { array_vec_len front.new ≤ array_vec_len front.old + 4 * length text.now }
{
    for byte in text {
        push_escaped(front, *byte);
    }
}

// The front that writes `text` into the file of an entry's output.
fn front_for(text: &[u8]) -> Front
    requires { length text.now ≤ 53 }
    ensures { result.items ≡ log_front text.now }
{
    let mut front = Front::new();
    front.try_extend_from_slice(b"{ printf '%s\\n' '").unwrap();
    push_text(&mut front, text);
    front.try_extend_from_slice(b"'; ").unwrap();
    front
}

/// The front that writes `fire` into the file of its entry's output.
pub(crate) fn front_of(fire: &EntryFire) -> Front
    ensures { result.items ≡ log_front (fire_text fire.now) }
{
    match fire {
        EntryFire::AsShown(moment) => front_for(line::text_of(moment).as_slice()),
        EntryFire::Once(due) => front_for(text::text_of(due).as_slice()),
    }
}
