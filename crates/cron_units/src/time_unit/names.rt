//! The names of ordinals, in small letters, and the look-up of a name in any case of its letters,
//! by one comparison of numbers.

ghost use Rattle.std.specs.Prelude.{◌≡◌, ◌∷◌, ◌++◌, [], ℕ, List, true, false, Some, IfSome, MatchOption};
ghost use Rattle.std.specs.List.{list_all};
ghost use Rattle.cron_units.specs.Keys.{IsKey, is_letter};
ghost use Rattle.cron_units.specs.Units.{named_in};
ghost use Rattle.cron_units.specs.Tables.{ordinals_view, are_keyed, keyed_in};

use super::Ordinal;

/// The letters of a name as one number, five bits for each. A word with more letters than any name
/// has a key that belongs to no name.
pub type Key = u64;

/// A number above the key of each name. A key that has reached it takes no more letters.
const LONG_KEY: Key = 1 << 55;

/// The names of a unit's ordinals.
#[derive(Clone, Copy)]
pub struct Names {
    /// What messages call one of the names, as `month name`.
    pub noun: &'static str,
    /// Each name, in small letters, with its ordinal.
    pub ordinals: &'static [(&'static str, Ordinal)],
    /// The names' keys with their ordinals, each in the slot that its key gives. A slot that no
    /// name's key gives holds the first name once more.
    pub slots: &'static [(Key, Ordinal)],
    /// The slot of a key is the first five bits of its product with this number. It is an odd
    /// number, found by trying, that gives no two keys of the unit the same slot. The contract of
    /// `definition` demands this of the table (`AreKeyed`): if a name is added and two keys share a
    /// slot, the proof fails.
    pub spread: u64,
}

/// Returns the key of a name with one more letter, from the key of the name.
#[inline(always)]
pub fn with_letter(key: Key, letter: u8) -> Key
    ensures { (name : List ℕ) → IsKey name key → IsKey (name ++ letter ∷ []) result }
{
    if key >= LONG_KEY {
        return key;
    }
    key * 32 + u64::from(letter % 32)
}

/// Returns the key of a name, or `None` if it has a byte that is no letter.
#[inline(always)]
fn key_of(name: &[u8]) -> Option<Key>
    ensures { MatchOption result
        (list_all is_letter name.now ≡ false)
        (λ key. (list_all is_letter name.now ≡ true) × IsKey name.now key) }
{
    let mut key = 0;
    for letter in name {
        if !letter.is_ascii_alphabetic() {
            return None;
        }
        key = with_letter(key, *letter);
    }
    Some(key)
}

/// Returns the ordinal of a name by its key, or `None` if no name has that key.
#[inline(always)]
pub(super) fn ordinal_keyed(names: Names, key: Key) -> Option<Ordinal>
    requires { are_keyed names ≡ true }
    ensures value { (name : List ℕ) → list_all is_letter name ≡ true → IsKey name key
        → result ≡ named_in (ordinals_view names.ordinals.now) name }
    ensures found { IfSome result (λ n. keyed_in names.ordinals.now key ≡ Some n) }
{
    let slot = (key.wrapping_mul(names.spread) >> 59) as usize;
    let (found, ordinal) = names.slots[slot];
    if found == key { Some(ordinal) } else { None }
}

/// Returns the ordinal of a name, in any case of its letters, or `None` if it is no name of the
/// unit.
#[inline(always)]
pub(super) fn ordinal_named(names: Names, sought: &str) -> Option<Ordinal>
    requires { are_keyed names ≡ true }
    ensures { result ≡ named_in (ordinals_view names.ordinals.now) sought.now }
{
    ordinal_keyed(names, key_of(sought.as_bytes())?)
}

/// The months' names.
pub(super) const MONTH_NAMES: [(&str, Ordinal); 23] = [
    ("jan", 1),
    ("january", 1),
    ("feb", 2),
    ("february", 2),
    ("mar", 3),
    ("march", 3),
    ("apr", 4),
    ("april", 4),
    ("may", 5),
    ("jun", 6),
    ("june", 6),
    ("jul", 7),
    ("july", 7),
    ("aug", 8),
    ("august", 8),
    ("sep", 9),
    ("september", 9),
    ("oct", 10),
    ("october", 10),
    ("nov", 11),
    ("november", 11),
    ("dec", 12),
    ("december", 12),
];

/// The `Names::spread` of the months' names.
pub(super) const MONTH_SPREAD: u64 = 6_599_389_479_065_819_167;

/// The months' names by their keys, as `Names::slots` holds them.
pub(super) const MONTH_SLOTS: [(Key, Ordinal); 32] = [
    (0x21465688b2, 12), // december
    (0x282e, 1),
    (0x282e, 1),
    (0x2aac, 7), // jul
    (0x73ec5688b2, 11), // november
    (0x55599, 7), // july
    (0x282e, 1),
    (0x18492c, 4), // april
    (0x6a7, 8), // aug
    (0x3432, 3), // mar
    (0x282e, 1),
    (0x39f6, 11), // nov
    (0xd0c868, 3), // march
    (0x4cb0, 9), // sep
    (0x282e, 1),
    (0x353d674, 8), // august
    (0x282e, 1),
    (0x282ea8659, 1), // january
    (0x282e, 1),
    (0x3c74, 10), // oct
    (0x282e, 1),
    (0x10a3, 12), // dec
    (0x132c285688b2, 9), // september
    (0x3c74788b2, 10), // october
    (0x31452a8659, 2), // february
    (0x3439, 5), // may
    (0x2aae, 6), // jun
    (0x282e, 1), // jan
    (0x555c5, 6), // june
    (0x282e, 1),
    (0x612, 4), // apr
    (0x18a2, 2), // feb
];

/// The names of the days of the week.
pub(super) const DAY_NAMES: [(&str, Ordinal); 16] = [
    ("sun", 1),
    ("sunday", 1),
    ("mon", 2),
    ("monday", 2),
    ("tue", 3),
    ("tues", 3),
    ("tuesday", 3),
    ("wed", 4),
    ("wednesday", 4),
    ("thu", 5),
    ("thurs", 5),
    ("thursday", 5),
    ("fri", 6),
    ("friday", 6),
    ("sat", 7),
    ("saturday", 7),
];

/// The `Names::spread` of the names of the days of the week.
pub(super) const DAY_SPREAD: u64 = 7_277_246_382_921_750_567;

/// The names of the days of the week by their keys, as `Names::slots` holds them.
pub(super) const DAY_SLOTS: [(Key, Ordinal); 32] = [
    (0x4eae, 1), // sun
    (0x4eae, 1),
    (0x4eae, 1),
    (0x27571039, 1), // sunday
    (0x4eae, 1),
    (0x4eae, 1),
    (0x9869591039, 7), // saturday
    (0x1445653, 5), // thurs
    (0x4eae, 1),
    (0x4eae, 1),
    (0x4eae, 1),
    (0xa22b299039, 5), // thursday
    (0x1af71039, 2), // monday
    (0x4eae, 1),
    (0x52a5, 3), // tue
    (0x35ee, 2), // mon
    (0x4eae, 1),
    (0x4eae, 1),
    (0x1a49, 6), // fri
    (0x4eae, 1),
    (0x5115, 5), // thu
    (0xa54b3, 3), // tues
    (0x17291c599039, 4), // wednesday
    (0xd249039, 6), // friday
    (0x4eae, 1),
    (0x4eae, 1),
    (0x4eae, 1),
    (0x4eae, 1),
    (0x4eae, 1),
    (0x4c34, 7), // sat
    (0x52a599039, 3), // tuesday
    (0x5ca4, 4), // wed
];
