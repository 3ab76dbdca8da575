//! Sets as plain words, a bit for each ordinal: bit i is for the least ordinal plus i. The C
//! interface uses this module, and so does `cron_time`, for the days of a month that match. `cron`
//! doesn't export it, so its users see no layout.

ghost use Rattle.std.specs.Prelude.{◌≡◌, ◌<◌, ◌+◌, ◌-◌, ◌^◌, ℕ};
ghost use Rattle.cron_bits.specs.Words.{bit_of_three, has_bit};
ghost use Rattle.cron_units.specs.Units.{contains, days_of_month, set_of, with_mark};

use super::{DaysOfMonth, Ordinals, UnitTable};
use cron_bits::wide::{Wide, wide};
use cron_bits::words::Words;

/// Makes the set of the ordinals whose bits are 1. Bits after the bit of the greatest ordinal mean
/// nothing.
pub fn from_bits<U: UnitTable<u64>>(bits: u64) -> Ordinals<U, u64>
    ensures { result ≡ set_of U.unit (λ x. has_bit bits (x - U.unit.least)) }
{
    Ordinals::cut(bits)
}

/// Returns the word of a set: the bits of its members are 1, and no others.
pub fn bits<U: UnitTable<u64>>(set: &Ordinals<U, u64>) -> u64
    ensures bits { (k : ℕ) → has_bit result k ≡ contains set.now (U.unit.least + k) }
    ensures within { result < 2 ^ 64 }
    ensures set { set_of U.unit (λ x. has_bit result (x - U.unit.least)) ≡ set.now }
{
    set.words.word(0)
}

/// Makes the set of the ordinals whose bits in three words are 1: bit i of the second is for the
/// least ordinal plus 64 + i, and so on. Bits after the bit of the greatest ordinal mean nothing.
pub fn from_three<U: UnitTable<Wide>>(first: u64, second: u64, third: u64) -> Ordinals<U, Wide>
    ensures { result ≡ set_of U.unit (λ x. bit_of_three first second third (x - U.unit.least)) }
{
    Ordinals::cut(wide(first, second, third))
}

/// Returns the three words of a set: the bits of its members are 1, and no others.
pub fn three<U: UnitTable<Wide>>(set: &Ordinals<U, Wide>) -> (u64, u64, u64)
    ensures bits { (k : ℕ)
        → bit_of_three result.0 result.1 result.2 k ≡ contains set.now (U.unit.least + k) }
    ensures set { set_of U.unit (λ x. bit_of_three result.0 result.1 result.2 (x - U.unit.least))
        ≡ set.now }
{
    let words = set.words;
    (words.word(0), words.word(1), words.word(2))
}

/// Makes the set of the numbered days whose bits are 1, where bit i is for day i + 1. The last day
/// of the month is one more if `last_day` is true. Bits after the bit of day 31 mean nothing.
pub fn days_from_bits(bits: u64, last_day: bool) -> DaysOfMonth
    ensures { result
        ≡ with_mark (set_of days_of_month (λ x. has_bit bits (x - days_of_month.least))) last_day }
{
    DaysOfMonth {
        numbered: from_bits(bits),
        last_day,
    }
}

/// Returns the word of the numbered days: the bits of its members are 1, and no others.
pub fn bits_of_days(days: &DaysOfMonth) -> u64
    ensures bits { (k : ℕ)
        → has_bit result k ≡ contains days.now.ordinals (days_of_month.least + k) }
    ensures within { result < 2 ^ 64 }
    ensures set { set_of days_of_month (λ x. has_bit result (x - days_of_month.least))
        ≡ days.now.ordinals }
{
    bits(&days.numbered)
}
