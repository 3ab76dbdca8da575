//! The text of a stamp: one line that notes a fire.

ghost use Rattle.std.specs.Prelude.{◌≡◌, ◌≤◌, ◌+◌, ◌++◌, IfSome, Some, length};
ghost use Rattle.arrayvec.specs.ArrayVec.{array_vec_len};
ghost use Rattle.cron_dues.specs.Due.{Due};
ghost use Rattle.cron_answers.specs.Stamps.{FrontsAreNoStamps, IsStamp, stamp_text};

use arrayvec::ArrayVec;
use cron_dues::fire::DueFire;
use cron_dues::reader;
use cron_dues::text::text_of;

const HEAD: &[u8] = b"crontool stamp 1: ";

const END: &[u8] = b";\n";

/// The bytes of the longest stamp, which holds the longest text of a due fire.
const LONGEST: usize = 73;

/// The bytes of a stamp.
pub type Stamp = ArrayVec<u8, LONGEST>;

// Appends bytes, which must fit in.
fn push_bytes(stamp: &mut Stamp, bytes: &[u8])
    requires { array_vec_len stamp.old + length bytes.now ≤ 73 }
    ensures items { stamp.new.items ≡ stamp.old.items ++ bytes.now }
    ensures len { array_vec_len stamp.new ≡ array_vec_len stamp.old + length bytes.now }
{
    stamp.try_extend_from_slice(bytes).unwrap();
}

/// The stamp of a fire.
pub fn stamp_of(fire: &DueFire) -> Stamp
    ensures { result.items ≡ stamp_text fire.now }
{
    let mut stamp = Stamp::new();
    push_bytes(&mut stamp, HEAD);
    push_bytes(&mut stamp, text_of(fire).as_slice());
    push_bytes(&mut stamp, END);
    stamp
}

// The fire whose stamp `bytes` are. For bytes that are no stamp, the result is any fire or `None`.
fn guess(bytes: &[u8]) -> Option<DueFire>
    ensures { (d : Due) → IsStamp bytes.now d → result ≡ Some d }
{
    if bytes.len() < HEAD.len() + END.len() {
        return None;
    }
    let text = str::from_utf8(&bytes[HEAD.len()..bytes.len() - END.len()]).ok()?;
    reader::read(text).ok()
}

/// Reads a stamp. `None` for all other bytes, including a stamp that is cut short, or that more
/// bytes follow.
pub fn read_stamp(bytes: &[u8]) -> Option<DueFire>
    ensures text { IfSome result (IsStamp bytes.now) }
    ensures only { (d : Due) → IsStamp bytes.now d → result ≡ Some d }
{
    match guess(bytes) {
        Some(fire) if stamp_of(&fire).as_slice() == bytes => Some(fire),
        _ => None,
    }
}

/// A law over the definition, which a caller calls for its contract: a stamp that is cut short
/// anywhere is no stamp.
pub fn fronts_are_no_stamps()
    ensures { FrontsAreNoStamps }
{}
