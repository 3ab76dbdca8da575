//! The flags of saving time in a zone file's types, which the reader of `jiff` doesn't check. A
//! type is one of the file's kinds of local time: its offset, its flag and its name.

ghost use Rattle.std.specs.Prelude.{◌≡◌, ◌+◌, ◌≤◌, ◌<◌, ◌↔◌, true, length};
ghost use Rattle.jiff_tz.specs.TzifReader.{be_u32};
ghost use Rattle.cron_c.specs.Savings.{TellSaving, TypesTellSaving, end_of_block, first_flag};

// The length of a header, in bytes.
const HEADER: usize = 44;

// The length of a type, in bytes, and the greatest valid flag of saving.
const TYPE: usize = 6;

const SAVING: u8 = 1;

// The big-endian number in the four bytes from place `at` on.
fn count_at(bytes: &[u8], at: usize) -> usize
    requires { at + 4 ≤ length bytes.now }
    ensures value { result ≡ be_u32 bytes.now at }
    ensures bound { result < 4_294_967_296 }
{
    u32::from_be_bytes([bytes[at], bytes[at + 1], bytes[at + 2], bytes[at + 3]]) as usize
}

// The place of the first type's flag in a block, which begins with its header, and whose times have
// `time_size` bytes each.
fn flag_of_first(bytes: &[u8], time_size: usize) -> usize
    requires header { 44 ≤ length bytes.now }
    requires size { time_size ≤ 8 }
    ensures value { result ≡ first_flag time_size bytes.now }
    ensures bound { result ≤ 100_000_000_000 }
{
    HEADER + count_at(bytes, 32) * (time_size + 1) + 4
}

// Returns true if the flag of each type in the block is 0 or 1. A type that the block is too short
// for has no flag.
fn types_tell_saving(bytes: &[u8], time_size: usize) -> bool
    requires { time_size ≤ 8 }
    ensures { (result ≡ true) ↔ TypesTellSaving time_size bytes.now }
{
    if bytes.len() < HEADER {
        return true;
    }
    let first = flag_of_first(bytes, time_size);
    for at in 0..count_at(bytes, 36) {
        match bytes.get(first + at * TYPE) {
            Some(flag) if *flag > SAVING => return false,
            Some(_) => {}
            None => return true,
        }
    }
    true
}

// The length of a block whose times have four bytes each, with its header.
fn block_end(bytes: &[u8]) -> usize
    requires { 44 ≤ length bytes.now }
    ensures { result ≡ end_of_block bytes.now }
{
    let times = count_at(bytes, 32) * 5;
    let types = count_at(bytes, 36) * TYPE + count_at(bytes, 40);
    let leaps = count_at(bytes, 28) * 8;
    HEADER + times + types + leaps + count_at(bytes, 24) + count_at(bytes, 20)
}

/// Returns true if the flag of each type is 0 or 1, in the block that holds a file's transitions. A
/// type that its block is too short for has no flag.
pub fn tell_saving(bytes: &[u8]) -> bool
    ensures { (result ≡ true) ↔ TellSaving bytes.now }
{
    if bytes.len() < HEADER {
        return true;
    }
    if bytes[4] == 0 {
        return types_tell_saving(bytes, 4);
    }
    let end = block_end(bytes);
    if bytes.len() < end {
        return true;
    }
    types_tell_saving(&bytes[end..], 8)
}
