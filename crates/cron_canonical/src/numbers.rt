//! The numbers of a set, in a text of fixed size.

ghost use Rattle.std.specs.Prelude.{◌≡◌, ◌==◌, ◌<◌, ◌≤◌, ◌+◌, ◌++◌, ◌∷◌, length, map};
ghost use Rattle.std.specs.Fmt.{decimal};
ghost use Rattle.arrayvec.specs.ArrayVec.{array_vec_len};
ghost use Rattle.cron_canonical.specs.Short.{items_text, longest, number_items, run_item, runs_of, short_item};

use arrayvec::ArrayVec;
use cron_units::time_unit::{Ordinal, OrdinalIter, TimeUnitSpec};
use itoa::Buffer;

/// Room for the longest text: each number of each field with a comma or a space after it, and `,L`
/// after the days of the month.
pub const LONGEST: usize = 1245;

/// The bytes of a text, `LONGEST` at most.
pub type Text = ArrayVec<u8, LONGEST>;

fn push_number(text: &mut Text, number: Ordinal)
    requires { array_vec_len text.old + length (decimal number) ≤ 1245 }
    ensures { text.new.items ≡ text.old.items ++ decimal number }
{
    let mut buffer = Buffer::new();
    let digits = buffer.format(number).as_bytes();
    text.try_extend_from_slice(digits).unwrap();
}

fn push_run(text: &mut Text, first: Ordinal, last: Ordinal)
    requires { array_vec_len text.old + length (short_item (run_item (first, last))) ≤ 1245 }
    ensures { text.new.items ≡ text.old.items ++ short_item (run_item (first, last)) }
{
    push_number(text, first);
    if first != last {
        text.push(b'-');
        push_number(text, last);
    }
}

// Returns true if `ordinal` is `last + 1`.
fn is_next(last: Ordinal, ordinal: Ordinal) -> bool
    ensures { result ≡ (last + 1 == ordinal) }
{
    u64::from(last) + 1 == u64::from(ordinal)
}

// Appends `start` and the `ordinals` after it as runs of consecutive numbers, as `0-4,30`.
fn push_runs(text: &mut Text, start: Ordinal, ordinals: OrdinalIter<'_>)
    requires { array_vec_len text.old
        + length (items_text (map run_item (runs_of (start ∷ ordinals))))
        ≤ 1245 }
    ensures { text.new.items
        ≡ text.old.items ++ items_text (map run_item (runs_of (start ∷ ordinals.entry))) }
{
    let (mut first, mut last) = (start, start);
    for ordinal in ordinals {
        if !is_next(last, ordinal) {
            push_run(text, first, last);
            text.push(b',');
            first = ordinal;
        }
        last = ordinal;
    }
    push_run(text, first, last);
}

/// Appends the numbers of `set`, or a star if it has all of them.
pub fn push_numbers<T: TimeUnitSpec>(text: &mut Text, set: &T)
    requires digits { T.time_unit.greatest < 10_000 }
    requires room { array_vec_len text.old + longest T.time_unit ≤ 1245 }
    ensures items { text.new.items
        ≡ text.old.items ++ items_text (number_items T.time_unit (T.ordinals set.now)) }
    ensures len { array_vec_len text.new ≤ array_vec_len text.old + longest T.time_unit }
{
    if set.is_all() {
        text.push(b'*');
        return;
    }
    let mut ordinals = set.iter();
    if let Some(start) = ordinals.next() {
        push_runs(text, start, ordinals);
    }
}
